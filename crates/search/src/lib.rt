// Searches for maps between two tables: the first map of a kind, the next one after the bytes of the map buffer, and the first one within a limit of
// trials; and the first and the next embedding among given pairs. The caller lends the cells, the orders and both buffers, with any content. A refused call
// changes no lent byte, and a call that finds no map changes no byte of the map buffer. Every call that is not refused leaves the marks of the candidates at
// the start of scratch. A reversed isomorphism is searched for as an isomorphism onto the target with rows and columns exchanged.
//
// Pairs are bits, laid out as those of the scratch buffer are: bit (i - 1) * n + (j - 1) is set where i may go to j. An embedding is allowed if the bit of
// each element with its image is set. No byte of the pairs changes.

#![tactic(auto)]

ghost use Rattle.std.specs.Prelude.{◌≡◌};
ghost use Rattle.semigroups.specs.Maps.{first, next};
ghost use Rattle.backtrack.specs.InnerState.{bounded};
ghost use Rattle.kinds.specs.Answers.{kind_of};
ghost use Rattle.search.specs.Answers.{search_answer_says, limited_answer_says};
ghost use Rattle.calls.specs.Calls.{lend, called, call};
ghost use Rattle.calls.specs.Limited.{limited_call};
ghost use Rattle.calls.specs.Among.{call_among};

use kinds::Kind;
use questions::SearchFault;

// What a search answers.
#[derive(Clone, Copy)]
pub enum SearchAnswer {
    Found,
    Nothing,
    Refused(SearchFault),
}

// What a search with a limit answers: found or none, with the number of trials; or stopped, because it needs more trials than the limit.
#[derive(Clone, Copy)]
pub enum LimitedAnswer {
    Found(u32),
    Nothing(u32),
    Stopped,
    Refused(SearchFault),
}

// Asks the questions, then searches for the first map, or with `next` for the next one, and writes it to `map`. Returns found, none, or the earliest
// question that fails.
pub fn search(
    kind: Kind,
    next: bool,
    source: &[u8],
    m: usize,
    target: &[u8],
    n: usize,
    map: &mut [u8],
    scratch: &mut [u8],
) -> SearchAnswer
    ensures call { called (search_answer_says result) map.new scratch.new ≡ call (kind_of kind) (bounded next map.old) (lend source.now m target.now n map.old scratch.old) }
{
    let asked = questions::ask(source, m, target, n, map.len(), scratch.len());
    if let Err(fault) = asked {
        return SearchAnswer::Refused(fault);
    }
    if kinds::find(kind, next, source, m, target, n, map, scratch) {
        return SearchAnswer::Found;
    }
    SearchAnswer::Nothing
}

// Writes the earliest map of the kind to `map`. Answers found, none, or the earliest question that fails.
pub fn first(
    kind: Kind,
    source: &[u8],
    m: usize,
    target: &[u8],
    n: usize,
    map: &mut [u8],
    scratch: &mut [u8],
) -> SearchAnswer
    ensures call { called (search_answer_says result) map.new scratch.new ≡ call (kind_of kind) first (lend source.now m target.now n map.old scratch.old) }
{
    search(kind, false, source, m, target, n, map, scratch)
}

// Replaces the bytes of `map` by the earliest map of the kind that is later than these bytes. Answers found, none, or the earliest question that fails.
pub fn next(
    kind: Kind,
    source: &[u8],
    m: usize,
    target: &[u8],
    n: usize,
    map: &mut [u8],
    scratch: &mut [u8],
) -> SearchAnswer
    ensures call { called (search_answer_says result) map.new scratch.new ≡ call (kind_of kind) (next map.old) (lend source.now m target.now n map.old scratch.old) }
{
    search(kind, true, source, m, target, n, map, scratch)
}

// Writes the earliest map of the kind to `map` if the search needs at most `limit` trials. Answers found or none, with the number of trials; or stopped;
// or the earliest question that fails.
pub fn first_within(
    kind: Kind,
    source: &[u8],
    m: usize,
    target: &[u8],
    n: usize,
    map: &mut [u8],
    scratch: &mut [u8],
    limit: u32,
) -> LimitedAnswer
    ensures call { called (limited_answer_says result) map.new scratch.new ≡ limited_call (kind_of kind) limit (lend source.now m target.now n map.old scratch.old) }
{
    let asked = questions::ask(source, m, target, n, map.len(), scratch.len());
    if let Err(fault) = asked {
        return LimitedAnswer::Refused(fault);
    }
    let result = kinds::search_kind(kind, false, Some(limit), source, m, target, n, map, scratch);
    let Ok(ended) = result else {
        return LimitedAnswer::Stopped;
    };
    let trials = limit - ended.left;
    if ended.map.is_some() {
        return LimitedAnswer::Found(trials);
    }
    LimitedAnswer::Nothing(trials)
}

// ---- among given pairs

// Asks the questions, then searches for the first allowed embedding, or with `next` for the next one, and writes it to `map`. Returns found, none, or
// the earliest question that fails.
fn search_among(
    next: bool,
    source: &[u8],
    m: usize,
    target: &[u8],
    n: usize,
    pairs: &[u8],
    map: &mut [u8],
    scratch: &mut [u8],
) -> SearchAnswer
    ensures call { called (search_answer_says result) map.new scratch.new ≡ call_among (bounded next map.old) pairs.now (lend source.now m target.now n map.old scratch.old) }
{
    let asked = questions::ask_among(source, m, target, n, map.len(), scratch.len(), pairs.len());
    if let Err(fault) = asked {
        return SearchAnswer::Refused(fault);
    }
    if !kinds::find_among(next, source, m, target, n, pairs, map, scratch) {
        return SearchAnswer::Nothing;
    }
    SearchAnswer::Found
}

// Writes the earliest embedding that the pairs allow to `map`. Answers found, none, or the earliest question that fails.
pub fn first_among(
    source: &[u8],
    m: usize,
    target: &[u8],
    n: usize,
    pairs: &[u8],
    map: &mut [u8],
    scratch: &mut [u8],
) -> SearchAnswer
    ensures call { called (search_answer_says result) map.new scratch.new ≡ call_among first pairs.now (lend source.now m target.now n map.old scratch.old) }
{
    search_among(false, source, m, target, n, pairs, map, scratch)
}

// Replaces the bytes of `map` by the earliest embedding that the pairs allow and that is later than these bytes. Answers found, none, or the earliest question
// that fails.
pub fn next_among(
    source: &[u8],
    m: usize,
    target: &[u8],
    n: usize,
    pairs: &[u8],
    map: &mut [u8],
    scratch: &mut [u8],
) -> SearchAnswer
    ensures call { called (search_answer_says result) map.new scratch.new ≡ call_among (next map.old) pairs.now (lend source.now m target.now n map.old scratch.old) }
{
    search_among(true, source, m, target, n, pairs, map, scratch)
}
