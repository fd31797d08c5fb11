// The backtrack search of arXiv 1603.06204, section 3, over two tables and the candidates marked in a scratch buffer. The call for element i + 1 is made
// inside the call for element i; to return is to backtrack. A placing is tested by the products of the new element alone: what the pairs placed before it
// require is kept beside the map.

#![tactic(auto)]

ghost use Rattle.std.specs.Prelude.{◌≡◌, ◌&&◌, eqb, leb, get_or};
ghost use Rattle.semigroups.specs.Tables.{Element};
ghost use Rattle.semigroups.specs.Scratch.{marked};
ghost use Rattle.backtrack.specs.InnerState.{Ready, within, ahead, asked, ended_of};

pub use crate::asked::Search;
use constraints::{Attempt, Required};
use placing::Partial;
use products::limits::{ORDER, PLACES};

pub mod asked;
pub mod old;

// How many trials a search without a limit makes at most before a search with rows takes over. They are enough for nearly every easy search.
pub const FIRST_TRIALS: u32 = 8000;

// The result of a search that ended: how many trials are left, and the map, if it found one: its images followed by zeros.
#[derive(Clone, Copy)]
pub struct Ended {
    pub left: u32,
    pub map: Option<[u8; ORDER]>,
}

// A search without a limit or with one, as callers hold it: whether its limit stopped it; how many trials are left, 0 if it was stopped; whether it found a map;
// and the map's images followed by zeros, or only zeros. A search without a limit is never stopped and does not count trials: `left` is 0.
#[derive(Clone, Copy)]
pub struct Outcome {
    pub stopped: bool,
    pub left: u32,
    pub ok: bool,
    pub image: [u8; ORDER],
}

// A search was stopped: its limit is not enough.
#[derive(Clone, Copy)]
pub struct Stopped;

// Returns whether x is at least `low`, unused, and a candidate for element i.
#[tactic(auto, using(semigroups::proofs::Candidates::size_rows))]
fn open(search: &Search<'_>, used: &[u8; PLACES], i: usize, low: usize, x: usize) -> bool
    requires element { Element search.now.source.now.order i }
    requires image { Element search.now.target.now.order x }
    ensures answer { result ≡ (leb low x && (eqb (get_or used.now x 0) 0 && marked search.now.target.now.order search.now.scratch.now i x)) }
{
    low <= x && used[x] == 0 && candidates::marked(search.scratch, search.target.order, i, x)
}

// Searches for the earliest map asked for that begins with what is placed. Returns the map, none, or that `limit` trials are not enough. `tight` says that what
// is placed equals the beginning of `after`, so that the rest must be later. What is lent as `known` is required by the list without its newest element, whose
// pairs are noted here.
fn extend(
    search: &Search<'_>,
    tight: bool,
    limit: u32,
    known: &Required,
    p: Partial,
) -> Result<Ended, Stopped>
    requires { Ready search.now tight known.now p }
    ensures answer { result ≡ ended_of (within limit (ahead search.now tight p)) }
{
    let at = p.len;
    if search.source.order <= at {
        let map = if tight { None } else { Some(p.image) };
        return Ok(Ended { left: limit, map });
    }
    let mut required = *known;
    required.note_newest(search.source, search.target, &p.image, at);
    let low: usize = if tight { search.after[at] as usize } else { 0 };
    let mut left = limit;
    for x in 1..search.target.order + 1 {
        if open(search, &p.used, at + 1, low, x) {
            left = left.checked_sub(1).ok_or(Stopped)?;
            // Looking by reference first, in constant time, avoids copying the map for most images that do not fit. The test decides.
            let next = Attempt {
                source: search.source,
                target: search.target,
                image: &p.image,
                used: &p.used,
                len: at,
                x,
            };
            if required.may_pass(&next) {
                if let Ok(q) = p.tried(search.source, search.target, &required, x) {
                    let ended = extend(search, x == low, left, &required, q)?;
                    if ended.map.is_some() {
                        return Ok(ended);
                    }
                    left = ended.left;
                }
            }
        }
    }
    Ok(Ended { left, map: None })
}

// Searches for the earliest map among the marked candidates, or with `next` for the earliest that is later than `after`. Returns the map, none, or that the
// search was stopped, because `limit` trials are not enough.
pub fn find_within(search: &Search<'_>, next: bool, limit: u32) -> Result<Ended, Stopped>
    ensures answer { result ≡ ended_of (within limit (asked search.now next)) }
{
    extend(search, next, limit, &Required::nothing(), Partial::new())
}
