// Cases 6 to 13, compared with the maps that RULES 23.2 prints, as constants. A comparison with the second search cannot tell whether both make the same
// mistake; this one can. The contracts of `told` and `first_two` say what is compared with what. Those of the functions after them say only how many agree, and
// code that counts without comparing would meet them too: that the constants are compared is read from the code and seen in the run.
ghost use Rattle.std.specs.Prelude.{◌≡◌, ◌≤◌};
ghost use Rattle.kinds.specs.Answers.{kind_of};
ghost use Rattle.judging.specs.InnerTally.{empty, agreed};
ghost use Rattle.cases.specs.InnerPrinted.{told_tally, first_two};

use crate::limits::same_bytes;
use crate::worked::{MAT5, SWAP, TWO};
use comparisons::said::search_said;
use judging::tally::{Tally, counted, start};
use kinds::Kind;

// A kind of maps and two tables between which they are searched for: the source of order m, and the target of order n.
#[derive(Clone, Copy)]
struct Search<'a> {
    kind: Kind,
    source: &'a [u8],
    m: usize,
    target: &'a [u8],
    n: usize,
    ghost small: { m ≤ 5 },
}

impl Search<'_> {
    // Makes one call on a map buffer of m bytes, the start of `before`, and compares what it answers and the map buffer afterwards with `said` and `after`.
    // Returns the tally.
    fn told(
        &self,
        next: bool,
        before: [u8; 5],
        said: Result<bool, usize>,
        after: [u8; 5],
        tally: Tally,
    ) -> Tally
        ensures answer { result ≡ told_tally (kind_of self.now.kind) next self.now.source.now self.now.m self.now.target.now self.now.n before said after tally }
    {
        let mut buffer = before;
        let mut scratch = [7u8; 140];
        let answer = search::search(
            self.kind,
            next,
            self.source,
            self.m,
            self.target,
            self.n,
            &mut buffer[..self.m],
            &mut scratch,
        );
        let answered = counted(tally, search_said(answer) == said);
        counted(answered, same_bytes(&buffer, &after))
    }

    // Compares the first call, which finds `first`, and the next one, which answers `said` and leaves `second` in the map buffer. Returns the tally.
    fn first_two(
        &self,
        first: [u8; 5],
        said: Result<bool, usize>,
        second: [u8; 5],
        tally: Tally,
    ) -> Tally
        ensures answer { result ≡ first_two (kind_of self.now.kind) self.now.source.now self.now.m self.now.target.now self.now.n first said second tally }
    {
        let a = self.told(false, [0; 5], Ok(true), first, tally);
        self.told(true, first, said, second, a)
    }
}

// Compares case 6: swap in two has one embedding. Returns the tally.
fn swap_in_two(tally: Tally) -> Tally
    ensures answer { result ≡ agreed 4 tally }
{
    let map = [2, 3, 0, 0, 0];
    let search = Search {
        kind: Kind::Embeddings,
        source: &SWAP,
        m: 2,
        target: &TWO,
        n: 4,
    };
    search.first_two(map, Ok(false), map, tally)
}

// Compares case 7: right in two has two embeddings. Returns the tally.
fn right_in_two(tally: Tally) -> Tally
    ensures answer { result ≡ agreed 6 tally }
{
    let last = [4, 1, 0, 0, 0];
    let search = Search {
        kind: Kind::Embeddings,
        source: &[1, 2, 1, 2],
        m: 2,
        target: &TWO,
        n: 4,
    };
    let a = search.first_two([1, 4, 0, 0, 0], Ok(true), last, tally);
    search.told(true, last, Ok(false), last, a)
}

// Compares case 9, the embeddings of one in two, in turn. Returns the tally.
fn one_in_two(tally: Tally) -> Tally
    ensures answer { result ≡ agreed 6 tally }
{
    let second = [2, 0, 0, 0, 0];
    let search = Search {
        kind: Kind::Embeddings,
        source: &[1],
        m: 1,
        target: &TWO,
        n: 4,
    };
    let a = search.first_two([1, 0, 0, 0, 0], Ok(true), second, tally);
    search.told(true, second, Ok(true), [4, 0, 0, 0, 0], a)
}

// Compares cases 6 to 9 and 13, which are about embeddings, and returns the tally.
pub fn embeddings() -> Tally
    ensures answer { result ≡ agreed 20 empty }
{
    let left_in_two = Search {
        kind: Kind::Embeddings,
        source: &[1, 1, 2, 2],
        m: 2,
        target: &TWO,
        n: 4,
    };
    let two_in_swap = Search {
        kind: Kind::Embeddings,
        source: &TWO,
        m: 4,
        target: &SWAP,
        n: 2,
    };
    let a = one_in_two(right_in_two(swap_in_two(start())));
    let b = left_in_two.told(false, [0; 5], Ok(false), [0; 5], a);
    two_in_swap.told(false, [0; 5], Ok(false), [0; 5], b)
}

// Compares case 10, the isomorphisms of two onto itself, in turn. Returns the tally.
fn two_onto_two(tally: Tally) -> Tally
    ensures answer { result ≡ agreed 4 tally }
{
    let search = Search {
        kind: Kind::Isomorphisms,
        source: &TWO,
        m: 4,
        target: &TWO,
        n: 4,
    };
    search.first_two([1, 2, 3, 4, 0], Ok(true), [4, 2, 3, 1, 0], tally)
}

// Compares case 11, the isomorphisms of null3 onto itself, in turn; the second is also the next one after bytes that are no map. Returns the tally.
fn null3_onto_null3(tally: Tally) -> Tally
    ensures answer { result ≡ agreed 6 tally }
{
    let null = [1u8; 9];
    let second = [1, 3, 2, 0, 0];
    let search = Search {
        kind: Kind::Isomorphisms,
        source: &null,
        m: 3,
        target: &null,
        n: 3,
    };
    let a = search.first_two([1, 2, 3, 0, 0], Ok(true), second, tally);
    search.told(true, [1, 2, 200, 0, 0], Ok(true), second, a)
}

// Compares case 12: the identity is the only isomorphism of mat5 onto itself. Returns the tally.
fn mat5_onto_mat5(tally: Tally) -> Tally
    ensures answer { result ≡ agreed 4 tally }
{
    let map = [1, 2, 3, 4, 5];
    let search = Search {
        kind: Kind::Isomorphisms,
        source: &MAT5,
        m: 5,
        target: &MAT5,
        n: 5,
    };
    search.first_two(map, Ok(false), map, tally)
}

// Compares cases 10 to 12, which are about isomorphisms, and returns the tally.
pub fn isomorphisms() -> Tally
    ensures answer { result ≡ agreed 14 empty }
{
    mat5_onto_mat5(null3_onto_null3(two_onto_two(start())))
}
