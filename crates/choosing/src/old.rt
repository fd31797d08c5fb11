// The costs of a table in two arguments.

ghost use Rattle.std.specs.Prelude.{◌≡◌};
ghost use Rattle.semigroups.specs.Tables.{product, Filled};
ghost use Rattle.choosing.specs.InnerNext.{Costs};

use products::Table;

// Returns for each of m elements its cost; zeros follow.
pub fn costs(source: &[u8], m: usize) -> [u16; 120]
    requires { Filled m source.now }
    ensures costs { Costs m (product m source.now) result }
{
    let table = Table {
        cells: source,
        order: m,
    };
    crate::costs(&table)
}
