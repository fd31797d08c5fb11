// Searches by kind between accepted tables, for callers that have asked the questions: the first map of a kind, or the next one after the bytes of the map
// buffer, with or without a limit of trials; and the first or the next embedding among given pairs. A reversed isomorphism is searched for as an isomorphism
// onto the target with rows and columns exchanged.

#![tactic(auto)]

ghost use Rattle.std.specs.Prelude.{◌≡◌, cond, ◌*◌, ◌≤◌, length, take};
ghost use Rattle.semigroups.specs.InnerSearch.{plain_kind};
ghost use Rattle.semigroups.specs.Tables.{Filled, Accepted, largest_order};
ghost use Rattle.semigroups.specs.InnerTables.{turned_cells};
ghost use Rattle.semigroups.specs.Scratch.{scratch_size};
ghost use Rattle.semigroups.specs.Calls.{gives, overwritten};
ghost use Rattle.semigroups.specs.Maps.{reversed};
ghost use Rattle.backtrack.specs.InnerState.{bounded, padded, ended_of};
ghost use Rattle.kinds.specs.Answers.{kind_of, sought_if};
ghost use Rattle.kinds.specs.InnerSearching.{answered, trials_in, remainder_under, searched, marked_work, image_in, put};
ghost use Rattle.calls.specs.Kinds.{order_fits};
ghost use Rattle.calls.specs.Calls.{lend, called};
ghost use Rattle.kinds.specs.InnerAmong.{answered_among};

use backtrack::{Ended, Search, Stopped};
use products::Table;
use products::limits::{CELLS, ORDER};

// The kinds of maps.
#[derive(Clone, Copy)]
pub enum Kind {
    Embeddings,
    Isomorphisms,
    Reversed,
}

// A limit is how many trials a search may take, or none. A trial is one candidate, unused so far, tested as the image of the next element.

// ---- over given marks

// Returns how many trials a limit allows; 0 if there is no limit, since trials are not counted then.
fn allowance(limit: Option<u32>) -> u32
    ensures answer { result ≡ trials_in limit }
{
    limit.unwrap_or(0)
}

// Searches the marks in scratch for the first map, or with `next` for the next one after `after`, within the limit. Returns what the search returns.
fn find_marked(
    next: bool,
    limit: Option<u32>,
    source: &[u8],
    m: usize,
    target: &[u8],
    n: usize,
    after: &[u8],
    scratch: &[u8],
) -> Result<Ended, Stopped>
    requires filled { Filled m source.now × Filled n target.now }
    requires n_in_bounds { (scratch_size m n ≤ length scratch.now) × (length after.now ≡ m) }
    ensures answer { result ≡ ended_of (remainder_under limit (marked_work next m source.now n target.now after.now scratch.now)) }
{
    let source = Table {
        cells: source,
        order: m,
    };
    let target = Table {
        cells: target,
        order: n,
    };
    let search = Search {
        source: &source,
        target: &target,
        scratch,
        after,
    };
    match limit {
        None => Ok(Ended {
            left: 0,
            map: narrowing::find(&search, next),
        }),
        Some(trials) => backtrack::find_within(&search, next, trials),
    }
}

// Returns the map that a search found, or none.
fn map_of(searched: Result<Ended, Stopped>) -> Option<[u8; ORDER]>
    ensures answer { result ≡ image_in searched }
{
    match searched {
        Ok(ended) => ended.map,
        Err(_) => None,
    }
}

// Writes the map that was found, if there is one, to `map`.
fn put_found(found: Option<[u8; ORDER]>, m: usize, map: &mut [u8])
    requires { (length map.old ≡ m) × (m ≤ largest_order) }
    ensures map { map.new ≡ put m found map.old }
{
    if let Some(image) = found {
        maps::write_images(map, &image, m);
    }
}

// ---- over the candidates of a kind, between accepted tables

// Returns whether tables of orders m and n can have an embedding, or with `onto` an isomorphism.
fn order_fits(onto: bool, m: usize, n: usize) -> bool
    ensures answer { result ≡ order_fits (plain_kind onto) m n }
{
    if onto {
        return m == n;
    }
    m <= n
}

// Marks the candidates in scratch, searches for embeddings, or with `onto` for isomorphisms, and writes the map to `map` if one is found. Returns what the search returns.
fn search_straight(
    onto: bool,
    next: bool,
    limit: Option<u32>,
    source: &[u8],
    m: usize,
    target: &[u8],
    n: usize,
    map: &mut [u8],
    scratch: &mut [u8],
) -> Result<Ended, Stopped>
    requires accepted { Accepted m source.now × Accepted n target.now }
    requires map_len { (length map.old ≡ m) × (scratch_size m n ≤ length scratch.old) }
    ensures call { called (gives result) map.new scratch.new ≡ searched (plain_kind onto) next limit (lend source.now m target.now n map.old scratch.old) }
{
    marking::mark(onto, source, m, target, n, scratch);
    if !order_fits(onto, m, n) {
        return Ok(Ended {
            left: allowance(limit),
            map: None,
        });
    }
    let result = find_marked(next, limit, source, m, target, n, &*map, &*scratch);
    put_found(map_of(result), m, map);
    result
}

// Marks the candidates in scratch, searches for reversed isomorphisms, and writes the map to `map` if one is found. Returns what the search returns. The target with its
// rows and columns exchanged is written to the start of `room`.
fn search_turned(
    next: bool,
    limit: Option<u32>,
    source: &[u8],
    m: usize,
    target: &[u8],
    n: usize,
    map: &mut [u8],
    scratch: &mut [u8],
    room: &mut [u8],
) -> Result<Ended, Stopped>
    requires accepted { Accepted m source.now × Accepted n target.now }
    requires map_len { (length map.old ≡ m) × (scratch_size m n ≤ length scratch.old) }
    requires n_in_bounds { n * n ≤ length room.old }
    ensures call { called (gives result) map.new scratch.new ≡ searched reversed next limit (lend source.now m target.now n map.old scratch.old) }
    ensures room { room.new ≡ overwritten (turned_cells n target.now) room.old }
{
    let size = n * n;
    products::old::turn(target, n, room);
    search_straight(true, next, limit, source, m, &room[..size], n, map, scratch)
}

// Does what `search_turned` does, with an array of its own as `room`. A target of order 30 or less, which has at most 900 cells, takes a small array: to clear
// the large one would be a tenth of a call between tables of a few elements.
fn search_reversed(
    next: bool,
    limit: Option<u32>,
    source: &[u8],
    m: usize,
    target: &[u8],
    n: usize,
    map: &mut [u8],
    scratch: &mut [u8],
) -> Result<Ended, Stopped>
    requires accepted { Accepted m source.now × Accepted n target.now }
    requires map_len { (length map.old ≡ m) × (scratch_size m n ≤ length scratch.old) }
    ensures call { called (gives result) map.new scratch.new ≡ searched reversed next limit (lend source.now m target.now n map.old scratch.old) }
{
    if n <= 30 {
        let mut few = [0u8; 900];
        return search_turned(next, limit, source, m, target, n, map, scratch, &mut few);
    }
    let mut all = [0u8; CELLS];
    search_turned(next, limit, source, m, target, n, map, scratch, &mut all)
}

// Marks the candidates of the kind in scratch, searches for the first map of the kind, or with `next` for the next one after the bytes of `map`, and writes it
// to `map` if one is found. Returns what the search returns.
pub fn search_kind(
    kind: Kind,
    next: bool,
    limit: Option<u32>,
    source: &[u8],
    m: usize,
    target: &[u8],
    n: usize,
    map: &mut [u8],
    scratch: &mut [u8],
) -> Result<Ended, Stopped>
    requires accepted { Accepted m source.now × Accepted n target.now }
    requires map_len { (length map.old ≡ m) × (scratch_size m n ≤ length scratch.old) }
    ensures call { called (gives result) map.new scratch.new ≡ searched (kind_of kind) next limit (lend source.now m target.now n map.old scratch.old) }
{
    match kind {
        Kind::Embeddings => search_straight(false, next, limit, source, m, target, n, map, scratch),
        Kind::Isomorphisms => search_straight(
            true, next, limit, source, m, target, n, map, scratch,
        ),
        Kind::Reversed => search_reversed(next, limit, source, m, target, n, map, scratch),
    }
}

// Writes the first map of the kind between two accepted tables to `map`, or with `next` the next one after the bytes of `map`. Returns whether there is one.
// Either way, scratch is left with the marks of the candidates of the kind. This is for callers that have asked the questions.
pub fn find(
    kind: Kind,
    next: bool,
    source: &[u8],
    m: usize,
    target: &[u8],
    n: usize,
    map: &mut [u8],
    scratch: &mut [u8],
) -> bool
    requires accepted { Accepted m source.now × Accepted n target.now }
    requires map_len { (length map.old ≡ m) × (scratch_size m n ≤ length scratch.old) }
    ensures call { called (gives (sought_if result)) map.new scratch.new ≡ answered (kind_of kind) (bounded next map.old) (lend source.now m target.now n map.old scratch.old) }
{
    let result = search_kind(kind, next, None, source, m, target, n, map, scratch);
    map_of(result).is_some()
}

// ---- among given pairs

// Searches the marks in scratch without a limit, and returns the map, or none. If `all` is false, the pairs exclude candidates; then the
// elements that have one mark left narrow the others before the search.
fn find_allowed(
    all: bool,
    next: bool,
    source: &[u8],
    m: usize,
    target: &[u8],
    n: usize,
    after: &[u8],
    scratch: &[u8],
) -> Option<[u8; ORDER]>
    requires filled { Filled m source.now × Filled n target.now }
    requires n_in_bounds { (scratch_size m n ≤ length scratch.now) × (length after.now ≡ m) }
    ensures answer { result ≡ padded (marked_work next m source.now n target.now after.now scratch.now).found }
{
    let source = Table {
        cells: source,
        order: m,
    };
    let target = Table {
        cells: target,
        order: n,
    };
    let search = Search {
        source: &source,
        target: &target,
        scratch,
        after,
    };
    if all {
        return narrowing::find(&search, next);
    }
    narrowing::find_narrowed(&search, next)
}

// Writes the first allowed embedding between two accepted tables to `map`, or with `next` the next one after the bytes of `map`. Returns whether there is one.
// Either way, scratch is left with the marks of the candidates that the pairs allow.
pub fn find_among(
    next: bool,
    source: &[u8],
    m: usize,
    target: &[u8],
    n: usize,
    pairs: &[u8],
    map: &mut [u8],
    scratch: &mut [u8],
) -> bool
    requires accepted { Accepted m source.now × Accepted n target.now }
    requires map_len { (length map.old ≡ m) × (scratch_size m n ≤ length scratch.old) }
    requires n_in_bounds { scratch_size m n ≤ length pairs.now }
    ensures call { called (gives (sought_if result)) map.new scratch.new ≡ answered_among (bounded next map.old) pairs.now (lend source.now m target.now n map.old scratch.old) }
{
    let all = marking::mark_among(source, m, target, n, pairs, scratch);
    if n < m {
        return false;
    }
    let found = find_allowed(all, next, source, m, target, n, &*map, &*scratch);
    put_found(found, m, map);
    found.is_some()
}
