// The same over an order and cells in two arguments.

ghost use Rattle.std.specs.Prelude.{◌≡◌, ◌*◌, ◌≤◌, length};
ghost use Rattle.semigroups.specs.Tables.{Filled};
ghost use Rattle.semigroups.specs.Calls.{overwritten};
ghost use Rattle.renaming.specs.InnerRenaming.{renamed_cells};

use products::Table;

// Writes to `renamed` the table with its elements numbered anew; later bytes are untouched.
pub fn rename(cells: &[u8], n: usize, renamed: &mut [u8])
    requires fact_1 { Filled n cells.now }
    requires fact_2 { n * n ≤ length renamed.old }
    ensures renamed { renamed.new ≡ overwritten (renamed_cells n cells.now) renamed.old }
{
    let table = Table { cells, order: n };
    crate::rename(&table, renamed);
}
