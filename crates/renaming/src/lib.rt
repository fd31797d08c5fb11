// Tables with their elements numbered anew: first those that are no product of two elements, then the others by their first places in the table.

#![tactic(auto)]

ghost use Rattle.std.specs.Prelude.{◌≡◌, ◌*◌, ◌≤◌, length};
ghost use Rattle.semigroups.specs.Calls.{overwritten};
ghost use Rattle.renaming.specs.InnerRenaming.{products_last, renamed_cells};

use light::FoundElements;
use products::Table;

pub mod old;

// Returns the elements in the sequence in which they are numbered anew: first those that are no product, in rising order; then the others by their first places
// in the table, read row after row, the earliest first.
fn products_last(table: &Table<'_>) -> FoundElements
    ensures answer { result ≡ products_last table.now.order table.now.cells.now }
{
    let counts = table.frequencies();
    let mut found = FoundElements::new();
    for x in 1..table.order + 1 {
        if counts[x - 1] == 0 {
            found.add(x);
        }
    }
    for y in table.cells {
        found.add(*y as usize);
    }
    found
}

// Writes to `renamed` the table in which each element has the number of its place in the list that `products_last` returns; later bytes are untouched. The
// two tables are isomorphic.
pub fn rename(table: &Table<'_>, renamed: &mut [u8])
    requires { table.now.order * table.now.order ≤ length renamed.old }
    ensures renamed { renamed.new ≡ overwritten (renamed_cells table.now.order table.now.cells.now) renamed.old }
{
    let found = products_last(table);
    parts::write_part(table, found.as_slice(), renamed);
}
