// The same over an order and cells in two arguments.

ghost use Rattle.std.specs.Prelude.{◌≡◌, ◌*◌, ◌≤◌, length};
ghost use Rattle.semigroups.specs.Tables.{Element, Filled, product};
ghost use Rattle.semigroups.specs.InnerTables.{turned_cells};
ghost use Rattle.semigroups.specs.Calls.{overwritten};

use crate::Table;

// Returns the product i·j.
pub fn times(cells: &[u8], n: usize, i: usize, j: usize) -> usize
    requires fact_1 { Filled n cells.now }
    requires fact_2 { Element n i }
    requires fact_3 { Element n j }
    ensures answer { result ≡ product n cells.now i j }
    ensures element { Element n result }
{
    let table = Table { cells, order: n };
    table.times(i, j)
}

// Writes the table with its rows and columns exchanged to the start of `turned`; later bytes are untouched.
pub fn turn(cells: &[u8], n: usize, turned: &mut [u8])
    requires fact_1 { Filled n cells.now }
    requires fact_2 { n * n ≤ length turned.old }
    ensures turned { turned.new ≡ overwritten (turned_cells n cells.now) turned.old }
{
    let table = Table { cells, order: n };
    table.turn(turned);
}
