// Every table of order 1 to 3. Both sides of a comparison equal one definition, so no contract here can tell whether they are compared at all; the program
// `cases` compares the answers that RULES 23.2 prints with constants too. The bound on an order stands in each contract: a struct for one number is no plainer.
ghost use Rattle.std.specs.Prelude.{◌≡◌, ◌*◌, ◌^◌, ◌≤◌};
ghost use Rattle.semigroups.specs.Tables.{Element, Accepted};
ghost use Rattle.semigroups.specs.Questions.{table_refusal};
ghost use Rattle.judging.specs.InnerTally.{empty, agreed};
ghost use Rattle.comparisons.specs.InnerWalking.{where_accepted, calls_between, calls_to, calls_from};

use crate::walk::Pair;
use judging::judged::compared;
use judging::tally::{Tally, start};
use plain::{Kind, judge, list_number, number_of_lists};

// Asks the four questions about every table of order n and compares each answer, with its cell or triple. Returns the tally.
pub fn all_tables(n: usize) -> Tally
    requires { Element 3 n }
    ensures answer { result ≡ agreed (n ^ (n * n)) empty }
{
    let size = n * n;
    let mut tally = start();
    for k in 0..number_of_lists(size, n) {
        let cells = list_number(size, n, k);
        tally = compared(&cells[..size], n, tally);
    }
    tally
}

// Compares the searches for embeddings and for isomorphisms from one table to another and returns the tally. A target that is not accepted is left out.
fn maps_between(source: &[u8], m: usize, target: &[u8], n: usize, tally: Tally) -> Tally
    requires accepted { Accepted m source.now }
    requires small { (m ≤ 5) × (n ≤ 27) }
    ensures answer { result ≡ agreed (calls_between source.now m target.now n) tally }
{
    if judge(target, n).is_err() {
        return tally;
    }
    let pair = Pair {
        source,
        m,
        target,
        n,
    };
    let embedded = pair.walk(Kind::Embeddings, [0; 5], tally);
    pair.walk(Kind::Isomorphisms, [0; 5], embedded)
}

// Compares the searches for embeddings and for isomorphisms from a table to every accepted table of order n. Returns the tally.
fn maps_to(source: &[u8], m: usize, n: usize, tally: Tally) -> Tally
    requires accepted { Accepted m source.now }
    requires small { m ≤ 5 }
    requires order { Element 3 n }
    ensures answer { result ≡ agreed (calls_to source.now m n (n ^ (n * n))) tally }
{
    let size = n * n;
    let mut tally = tally;
    for k in 0..number_of_lists(size, n) {
        let target = list_number(size, n, k);
        tally = maps_between(source, m, &target[..size], n, tally);
    }
    tally
}

// Compares the searches for embeddings and for isomorphisms from a table, if it is accepted, to every accepted table of order n. Returns the tally.
fn maps_from(source: &[u8], m: usize, n: usize, tally: Tally) -> Tally
    requires small { m ≤ 5 }
    requires order { Element 3 n }
    ensures answer { result ≡ agreed (where_accepted (table_refusal m source.now) (calls_to source.now m n (n ^ (n * n)))) tally }
{
    if judge(source, m).is_err() {
        return tally;
    }
    maps_to(source, m, n, tally)
}

// Compares the searches for embeddings and for isomorphisms from every accepted table of order m to every accepted table of order n. Returns the tally.
pub fn all_maps(m: usize, n: usize) -> Tally
    requires source { Element 3 m }
    requires target { Element 3 n }
    ensures answer { result ≡ agreed (calls_from m n (m ^ (m * m))) empty }
{
    let size = m * m;
    let mut tally = start();
    for k in 0..number_of_lists(size, m) {
        let source = list_number(size, m, k);
        tally = maps_from(&source[..size], m, n, tally);
    }
    tally
}
