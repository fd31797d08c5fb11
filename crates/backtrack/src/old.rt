// The same over orders and cells in arguments, with an outcome in place of a `Result`.

ghost use Rattle.std.specs.Prelude.{◌≡◌, false, [], ◌≤◌, length, replicate};
ghost use Rattle.semigroups.specs.Tables.{product, Filled};
ghost use Rattle.semigroups.specs.Scratch.{scratch_size, marked};
ghost use Rattle.semigroups.specs.InnerTrials.{counted};
ghost use Rattle.backtrack.specs.InnerState.{bounded, within, outcome_of};

use crate::{Outcome, Search};
use products::Table;

// Returns the outcome with no map: the search was stopped, or it ended with `left` trials left.
pub fn no_map(stopped: bool, left: u32) -> Outcome
    ensures answer { result ≡ record { stopped = stopped; left = left; ok = false; image = replicate 120 0 } }
{
    Outcome {
        stopped,
        left,
        ok: false,
        image: [0u8; 120],
    }
}

// Searches for the earliest map among the marked candidates, or with `next` for the earliest that is later than `after`.
#[tactic(auto, unfolding(crate::specs::InnerState::outcome_of, crate::specs::InnerState::ended_of))]
pub fn find_within(
    source: &[u8],
    m: usize,
    target: &[u8],
    n: usize,
    scratch: &[u8],
    after: &[u8],
    next: bool,
    limit: u32,
) -> Outcome
    requires filled { Filled m source.now × Filled n target.now }
    requires n_in_bounds { (scratch_size m n ≤ length scratch.now) × (length after.now ≡ m) }
    ensures answer { result ≡ outcome_of (within limit (counted (product m source.now) (product n target.now) (marked n scratch.now) (bounded next after.now) n m [])) }
{
    let source = Table {
        cells: source,
        order: m,
    };
    let target = Table {
        cells: target,
        order: n,
    };
    let search = Search {
        source: &source,
        target: &target,
        scratch,
        after,
    };
    match crate::find_within(&search, next, limit) {
        Ok(ended) => match ended.map {
            Some(image) => Outcome {
                stopped: false,
                left: ended.left,
                ok: true,
                image,
            },
            None => no_map(false, ended.left),
        },
        Err(_) => no_map(true, 0),
    }
}
