// How often an element stands among the cells of a table, in its row and in its column, and how many elements commute with it (arXiv 1603.06204, section 4;
// RULES 4.5): for one element, or for all elements of a table.

#![tactic(auto)]

ghost use Rattle.std.specs.Prelude.{◌≡◌};
ghost use Rattle.semigroups.specs.Tables.{Element};
ghost use Rattle.semigroups.specs.Invariants.{row_frequency, column_frequency, commuting};
ghost use Rattle.products.specs.Tables.{times_of};
ghost use Rattle.products.specs.InnerCounting.{occurrences, InRange};
ghost use Rattle.counts.specs.InnerCounts.{AllCounts};

use products::Table;
use products::limits::ORDER;

pub mod old;

// ---- one element

// Returns how often a stands among k cells: the first, and then each that is `step` cells after the one before.
pub fn count(cells: &[u8], k: usize, step: usize, a: usize) -> usize
    requires { InRange k step cells.now }
    ensures answer { result ≡ occurrences a step k cells.now }
{
    // A loop, which is quicker than to filter: its body becomes an addition without a branch.
    let mut found = 0;
    for i in 0..k {
        if cells[i * step] as usize == a {
            found += 1;
        }
    }
    found
}

// Returns how often a stands in row a, the n cells that start at (a - 1) × n.
pub fn row_frequency(table: &Table<'_>, a: usize) -> usize
    requires { Element table.now.order a }
    ensures answer { result ≡ row_frequency table.now.order (times_of table.now) a }
{
    let at = (a - 1) * table.order;
    count(&table.cells[at..], table.order, 1, a)
}

// Returns how often a stands in column a, whose n cells stand n apart.
pub fn column_frequency(table: &Table<'_>, a: usize) -> usize
    requires { Element table.now.order a }
    ensures answer { result ≡ column_frequency table.now.order (times_of table.now) a }
{
    let at = a - 1;
    count(&table.cells[at..], table.order, table.order, a)
}

// Returns how many b have a·b = b·a, by comparing row a with column a.
pub fn commuting(table: &Table<'_>, a: usize) -> usize
    requires { Element table.now.order a }
    ensures answer { result ≡ commuting table.now.order (times_of table.now) a }
{
    // A loop, as in `count`.
    let mut found = 0;
    for b in 1..table.order + 1 {
        if table.times(a, b) == table.times(b, a) {
            found += 1;
        }
    }
    found
}

// ---- all elements

// Each count of element a stands at place a - 1; places after the last element hold 0. An array for each count, since a key takes them one after another.
#[derive(Clone, Copy)]
pub struct ElementCounts {
    pub frequency: [u16; ORDER],
    pub diagonal: [u16; ORDER],
    pub row: [u16; ORDER],
    pub column: [u16; ORDER],
    pub commuting: [u16; ORDER],
}

// Returns the counts of every element's profile.
pub fn all_counts(table: &Table<'_>) -> ElementCounts
    ensures answer { AllCounts table.now.order (times_of table.now) result }
{
    let n = table.order;
    let mut row = [0u16; ORDER];
    let mut column = [0u16; ORDER];
    let mut commute = [0u16; ORDER];
    for a in 1..n + 1 {
        row[a - 1] = row_frequency(table, a) as u16;
        column[a - 1] = column_frequency(table, a) as u16;
        commute[a - 1] = commuting(table, a) as u16;
    }
    ElementCounts {
        frequency: table.frequencies(),
        diagonal: table.tally(n, n + 1),
        row,
        column,
        commuting: commute,
    }
}
