// How many elements form each pattern with a given one, and rows without the elements that have too few such neighbours: an embedding sends the neighbours of
// an element to neighbours of its image, of the same pattern.

#![tactic(auto)]

ghost use Rattle.std.specs.Prelude.{◌≡◌, ◌&&◌, ◌+◌, ◌≤◌};
ghost use Rattle.semigroups.specs.Tables.{Element};
ghost use Rattle.products.specs.Tables.{times_of};
ghost use Rattle.rows.specs.InnerRows.{in_row, word, packed_row, kept_rows};
ghost use Rattle.neighbours.specs.InnerNeighbours.{Neighbours, no_more, enough, has_as_many};

use products::Table;
use rows::{Row, WORDS};

pub mod old;

// Returns, for each pattern, how many elements of the table form it with c.
#[tactic(auto, using(crate::proofs::Sending::pattern_below))]
fn neighbours(table: &Table<'_>, c: usize) -> [u8; 64]
    requires { Element table.now.order c }
    ensures counts { Neighbours table.now.order (times_of table.now) c result }
{
    let mut found = [0u8; 64];
    for b in 1..table.order + 1 {
        let cb = table.times(c, b);
        let bc = table.times(b, c);
        found[propagation::pattern(c, b, cb, bc)] += 1;
    }
    found
}

// Returns whether for each pattern the count in `few` is at most the one in `many`.
fn no_more<'a>(few: &'a [u8; 64], many: &'a [u8; 64]) -> bool
    ensures answer { result ≡ no_more few.now many.now }
{
    (1..65).all(|k| few[k - 1] <= many[k - 1])
}

// Returns whether y is in the row and has at least as many neighbours of each pattern as `few` says.
fn has_enough(target: &Table<'_>, few: &[u8; 64], row: Row, y: usize) -> bool
    requires { Element target.now.order y }
    ensures answer { result ≡ (in_row row y && enough target.now.order (times_of target.now) few.now y) }
{
    row.has(y) && no_more(few, &neighbours(target, y))
}

// Returns the word of those of the `count` elements from `from` on that are in the row and have at least as many neighbours of each pattern as `few` says.
fn enough_word(target: &Table<'_>, few: &[u8; 64], row: Row, from: usize, count: usize) -> u64
    requires le_from { (1 ≤ from) × (from ≤ 61) × (count ≤ 60) × (1 ≤ count → from + count ≤ target.now.order + 1) }
    ensures answer { result ≡ word (λ y. in_row row y && enough target.now.order (times_of target.now) few.now y) from count }
{
    let mut w: u64 = 0;
    for k in 0..count {
        if has_enough(target, few, row, from + k) {
            w += 1u64 << k;
        }
    }
    w
}

// Returns the row with only those of its elements that are elements of the table and have at least as many neighbours of each pattern as `few` says.
#[tactic(auto, unfolding(rows::specs::InnerRows::packed_row))]
fn enough_row(target: &Table<'_>, few: &[u8; 64], row: Row) -> Row
    ensures answer { result ≡ packed_row target.now.order (λ y. in_row row y && enough target.now.order (times_of target.now) few.now y) }
{
    let low = rows::low_count(target.order);
    Row {
        lo: enough_word(target, few, row, 1, low),
        hi: enough_word(target, few, row, 61, target.order - low),
    }
}

// Takes out of the row of each source element the elements that are none of the target, and those that have fewer neighbours of some pattern than the source
// element; the rows after these do not change. No embedding is lost.
pub fn keep_neighbours(source: &Table<'_>, target: &Table<'_>, rows: &mut [u64; WORDS])
    ensures rows { rows.new ≡ kept_rows source.now.order target.now.order (has_as_many source.now.order (times_of source.now) target.now.order (times_of target.now)) rows.old }
{
    for c in 1..source.order + 1 {
        let few = neighbours(source, c);
        let row = enough_row(target, &few, rows::row_of(&*rows, c));
        rows::mask(rows, c, row);
    }
}
