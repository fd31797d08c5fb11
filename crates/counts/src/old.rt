// The counts of a table in two arguments.

ghost use Rattle.std.specs.Prelude.{◌≡◌};
ghost use Rattle.semigroups.specs.Tables.{product, Filled};
ghost use Rattle.counts.specs.InnerCounts.{AllCounts};

use crate::ElementCounts;
use products::Table;

// Returns the counts of every element's profile.
pub fn all_counts(cells: &[u8], n: usize) -> ElementCounts
    requires { Filled n cells.now }
    ensures answer { AllCounts n (product n cells.now) result }
{
    let table = Table { cells, order: n };
    crate::all_counts(&table)
}
