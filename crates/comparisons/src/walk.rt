// Whole lists of maps by first and next. Each call of the library is compared with the second search, by its answer and by the map buffer that it leaves.
ghost use Rattle.std.specs.Prelude.{◌≡◌, true, ◌≤◌, length, MatchOption};
ghost use Rattle.semigroups.specs.Tables.{Accepted};
ghost use Rattle.semigroups.specs.Results.{optional};
ghost use Rattle.kinds.specs.Answers.{kind_of as search_kind_of};
ghost use Rattle.plain.specs.InnerTables.{kind_of};
ghost use Rattle.judging.specs.InnerTally.{agreed};
ghost use Rattle.comparisons.specs.InnerWalking.{walk_found, walk_calls};

use crate::said::search_said;
use judging::tally::{Tally, counted};
use plain::table::Table;
use plain::{Kind, next_map};
use search::search;

// Returns the library's name of a kind of maps.
fn kind_of(kind: Kind) -> kinds::Kind
    ensures answer { search_kind_of result ≡ kind_of kind }
{
    match kind {
        Kind::Embeddings => kinds::Kind::Embeddings,
        Kind::Isomorphisms => kinds::Kind::Isomorphisms,
    }
}

// Two accepted tables between which maps are searched for: the source of order m, and the target of order n.
#[derive(Clone, Copy)]
pub struct Pair<'a> {
    pub source: &'a [u8],
    pub m: usize,
    pub target: &'a [u8],
    pub n: usize,
    pub ghost source_accepted: { Accepted m source.now },
    pub ghost target_accepted: { Accepted n target.now },
    pub ghost small: { (m ≤ 5) × (n ≤ 27) },
}

// The result of a compared call: whether both agree, and the map buffer after the call, if the library found a map.
#[derive(Clone, Copy)]
struct Compared {
    same: bool,
    found: Option<[u8; 5]>,
}

impl Pair<'_> {
    // Returns what a call leaves according to the second search, if it finds a map: the array whose first m bytes are the map buffer. Every list of elements is
    // later than a list of zeros, so the first map is the next one after zeros.
    fn expected(&self, kind: Kind, next: bool, before: [u8; 5]) -> Option<[u8; 5]>
        ensures answer { optional result ≡ walk_found (kind_of kind) next self.now.source.now self.now.m self.now.target.now self.now.n before }
    {
        let after = if next { before } else { [0; 5] };
        let source = Table {
            cells: self.source,
            order: self.m,
        };
        let target = Table {
            cells: self.target,
            order: self.n,
        };
        let map = next_map(kind, &source, &target, &after[..self.m])?;
        let mut buffer = before;
        buffer[..self.m].copy_from_slice(&map[..self.m]);
        Some(buffer)
    }

    // Makes one call on a map buffer of m bytes, the start of `before`, and a scratch buffer that is longer than needed. Returns how it compares.
    // Both sides equal one definition, so no contract can tell whether they are compared at all; the program `cases` compares the maps that RULES 23.2 prints
    // with constants too.
    fn step(&self, kind: Kind, next: bool, before: [u8; 5]) -> Compared
        ensures same { result.same ≡ true }
        ensures found { optional result.found ≡ walk_found (kind_of kind) next self.now.source.now self.now.m self.now.target.now self.now.n before }
        ensures long { MatchOption result.found (Unit {0}) (λ b. length b ≡ 5) }
    {
        let mut buffer = before;
        let mut scratch = [7u8; 140];
        let answer = search(
            kind_of(kind),
            next,
            self.source,
            self.m,
            self.target,
            self.n,
            &mut buffer[..self.m],
            &mut scratch,
        );
        let said = search_said(answer);
        let second = self.expected(kind, next, before);
        let same_answer = said == Ok(second.is_some());
        let same_bytes = buffer == second.unwrap_or(before);
        Compared {
            same: same_answer & same_bytes,
            found: (said == Ok(true)).then_some(buffer),
        }
    }

    // Asks for the first map of the kind, on a map buffer that holds `before`; then, by calls of next, for all maps later than `before`, until the answer is none.
    // Returns the tally, in which every call agrees. As for `step`, the contract cannot tell whether the calls are compared.
    pub fn walk(&self, kind: Kind, before: [u8; 5], tally: Tally) -> Tally
        ensures answer { result ≡ agreed (walk_calls (kind_of kind) self.now.source.now self.now.m self.now.target.now self.now.n before) tally }
    {
        let first = self.step(kind, false, before);
        let mut tally = counted(tally, first.same);
        let mut buffer = before;
        loop {
            let next = self.step(kind, true, buffer);
            tally = counted(tally, next.same);
            match next.found {
                None => return tally,
                Some(map) => buffer = map,
            }
        }
    }
}
