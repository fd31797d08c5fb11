// The four questions about a table, compared.
ghost use Rattle.std.specs.Prelude.{◌≡◌, true};
ghost use Rattle.semigroups.specs.Questions.{table_refusal};
ghost use Rattle.plain.specs.InnerSaid.{said_of};
ghost use Rattle.judging.specs.InnerSaid.{same_said};
ghost use Rattle.judging.specs.InnerTally.{counted};

use crate::said::said_of;
use crate::tally::{Tally, counted};
use plain::{Said, judge};

// Compares the answer to the four questions with that of the second search, and counts the comparison. The two agree for every table. Returns the tally.
// Both sides equal one definition, so no contract can tell whether they are compared at all; `judged` compares with constants too.
pub fn compared(cells: &[u8], n: usize, tally: Tally) -> Tally
    ensures same { result ≡ counted tally true }
{
    counted(tally, said_of(tables::check(cells, n)) == judge(cells, n))
}

// Compares the answer to the four questions with `said`, and then with the answer of the second search. Returns the tally.
pub fn judged(cells: &[u8], n: usize, said: Result<(), Said>, tally: Tally) -> Tally
    ensures answer { result ≡ counted (counted tally (same_said (said_of (table_refusal n cells.now)) said)) true }
{
    let answered = counted(tally, said_of(tables::check(cells, n)) == said);
    compared(cells, n, answered)
}
