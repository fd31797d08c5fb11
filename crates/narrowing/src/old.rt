// The same over orders and cells in arguments, with an outcome in place of an `Option`.

ghost use Rattle.std.specs.Prelude.{◌≡◌, List, ℕ, [], ◌≤◌, length};
ghost use Rattle.std.proofs.Math.Option.{Option};
ghost use Rattle.semigroups.specs.Tables.{product, Filled};
ghost use Rattle.semigroups.specs.Scratch.{scratch_size, marked};
ghost use Rattle.semigroups.specs.InnerSearch.{search};
ghost use Rattle.backtrack.specs.InnerState.{bounded, found_in, padded};
ghost use Rattle.fitting.specs.InnerPartial.{blank};
ghost use Rattle.narrowing.specs.InnerState.{start_rows};

use backtrack::{Outcome, Search};
use fitting::Partial;
use products::Table;
use products::limits::ORDER;

// Returns the outcome of a search without a limit.
fn outcome(found: Option<[u8; ORDER]>) -> Outcome
    ensures answer { (o : Option (List ℕ)) → found ≡ padded o → result ≡ found_in o }
{
    match found {
        Some(image) => Outcome {
            stopped: false,
            left: 0,
            ok: true,
            image,
        },
        None => backtrack::old::no_map(false, 0),
    }
}

// Returns the map with nothing placed and the marked candidates in its rows.
pub fn start(source: &[u8], m: usize, target: &[u8], n: usize, scratch: &[u8]) -> Partial
    requires filled { Filled m source.now × Filled n target.now }
    requires n_in_bounds { scratch_size m n ≤ length scratch.now }
    ensures answer { result ≡ blank (start_rows m (product m source.now) n (product n target.now) (marked n scratch.now)) }
{
    let source = Table {
        cells: source,
        order: m,
    };
    let target = Table {
        cells: target,
        order: n,
    };
    crate::start(&source, &target, scratch)
}

// Returns the earliest map among the marked candidates, or with `next` the earliest that is later than `after`; or none.
pub fn find(
    source: &[u8],
    m: usize,
    target: &[u8],
    n: usize,
    scratch: &[u8],
    after: &[u8],
    next: bool,
) -> Outcome
    requires filled { Filled m source.now × Filled n target.now }
    requires n_in_bounds { (scratch_size m n ≤ length scratch.now) × (length after.now ≡ m) }
    ensures answer { result ≡ found_in (search (product m source.now) (product n target.now) (marked n scratch.now) (bounded next after.now) n m []) }
{
    let source = Table {
        cells: source,
        order: m,
    };
    let target = Table {
        cells: target,
        order: n,
    };
    let search = Search {
        source: &source,
        target: &target,
        scratch,
        after,
    };
    outcome(crate::find(&search, next))
}
