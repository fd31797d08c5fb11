// Rows without the elements that have too few neighbours, for callers that hold the cells of the tables and their orders.

#![tactic(auto)]

ghost use Rattle.std.specs.Prelude.{◌≡◌};
ghost use Rattle.semigroups.specs.Tables.{Filled, product};
ghost use Rattle.rows.specs.InnerRows.{kept_rows};
ghost use Rattle.neighbours.specs.InnerNeighbours.{has_as_many};

use products::Table;
use rows::WORDS;

// Does what `keep_neighbours` does, for the tables of orders m and n with these cells.
pub fn keep_neighbours(source: &[u8], m: usize, target: &[u8], n: usize, rows: &mut [u64; WORDS])
    requires { Filled m source.now × Filled n target.now }
    ensures rows { rows.new ≡ kept_rows m n (has_as_many m (product m source.now) n (product n target.now)) rows.old }
{
    let source = Table {
        cells: source,
        order: m,
    };
    let target = Table {
        cells: target,
        order: n,
    };
    crate::keep_neighbours(&source, &target, rows);
}
