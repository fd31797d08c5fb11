// The same over an order and cells in two arguments.

ghost use Rattle.std.specs.Prelude.{◌≡◌, length};
ghost use Rattle.semigroups.specs.Tables.{Filled, product};
ghost use Rattle.semigroups.specs.Maps.{is_embedding};

use tables::Table;

// Returns whether `map` is an embedding of the source in the target.
pub fn embeds(source: &[u8], m: usize, target: &[u8], n: usize, map: &[u8]) -> bool
    requires fact_1 { Filled m source.now }
    requires fact_2 { Filled n target.now }
    requires fact_3 { length map.now ≡ m }
    ensures answer { result ≡ is_embedding m (product m source.now) n (product n target.now) map.now }
{
    let first = Table {
        cells: source,
        order: m,
    };
    let second = Table {
        cells: target,
        order: n,
    };
    crate::embeds(&first, &second, map)
}
