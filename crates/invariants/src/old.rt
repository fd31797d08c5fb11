// The same over an order and cells in two arguments.

ghost use Rattle.semigroups.specs.Tables.{Filled, product};
ghost use Rattle.invariants.specs.InnerPerElement.{AllIndexPeriodKeys};

use crate::IndexPeriodKeys;
use tables::Table;

// Returns the index and the period of every element.
pub fn all_index_period_keys(cells: &[u8], n: usize) -> IndexPeriodKeys
    requires { Filled n cells.now }
    ensures answer { AllIndexPeriodKeys n (product n cells.now) result }
{
    let table = Table { cells, order: n };
    crate::all_index_period_keys(&table)
}
