// The thirteen worked cases (RULES 23.2) again, through the compiled functions. The contracts of `tables`, `elements` and `maps` say only how many answers
// agree, and code that counts without comparing would meet them too; `judged`, `same_powers` and `same_profile` say what is compared, and the run compares it
// with the printed constants.
ghost use Rattle.std.specs.Prelude.{◌≡◌};
ghost use Rattle.invariants.specs.Answers.{index_period_value, index_period_says, profile_value, profile_says};
ghost use Rattle.cases.specs.InnerAnswering.{same_given_powers, same_given_profile};
ghost use Rattle.judging.specs.InnerTally.{empty, agreed};

use comparisons::walk::Pair;
use invariants::{ElementProfile, IndexPeriod};
use judging::judged::judged;
use judging::tally::{Tally, counted, start};
use plain::{Kind, Said, failed};
use tables::No;

pub const MAT5: [u8; 25] = [
    1, 1, 1, 1, 1, 1, 2, 3, 2, 3, 1, 1, 1, 2, 3, 1, 4, 5, 4, 5, 1, 1, 1, 4, 5,
];

pub const SWAP: [u8; 4] = [1, 2, 2, 1];

pub const TWO: [u8; 16] = [1, 1, 4, 4, 1, 2, 3, 4, 1, 3, 2, 4, 1, 4, 1, 4];

// ---- tables

// Compares cases 1 to 3 and returns the tally.
pub fn tables() -> Tally
    ensures answer { result ≡ agreed 6 empty }
{
    let triple = Said {
        number: 4,
        first: 1,
        second: 1,
        third: 2,
    };
    let one = judged(&[2, 1, 1, 1], 2, Err(triple), start());
    let two = judged(&[1, 3, 1, 1], 2, Err(failed(3, 2)), one);
    judged(&[], 0, Err(failed(1, 0)), two)
}

// ---- elements

// Returns whether the index, the period and the idempotent power of an element are these. Field by field: `invariants` has no `==` for its types.
fn same_powers(a: Result<IndexPeriod, No>, b: IndexPeriod) -> bool
    ensures answer { result ≡ same_given_powers (index_period_says a) (index_period_value b) }
{
    let Ok(v) = a else {
        return false;
    };
    ((v.index == b.index) & (v.period == b.period)) & (v.idempotent == b.idempotent)
}

// Returns whether the profile of an element is this one, its idempotent power included.
fn same_profile(a: Result<ElementProfile, No>, b: ElementProfile) -> bool
    ensures answer { result ≡ same_given_profile (profile_says a) (profile_value b) }
{
    let Ok(v) = a else {
        return false;
    };
    (((v.powers.index == b.powers.index) & (v.powers.period == b.powers.period))
        & ((v.frequency == b.frequency)
            & ((v.diagonal == b.diagonal)
                & ((v.row == b.row) & ((v.column == b.column) & (v.commuting == b.commuting))))))
        & (v.powers.idempotent == b.powers.idempotent)
}

// Compares cases 4 and 5 and returns the tally.
pub fn elements() -> Tally
    ensures answer { result ≡ agreed 2 empty }
{
    let case4 = same_powers(
        invariants::index_period(&MAT5, 5, 3),
        IndexPeriod {
            index: 2,
            period: 1,
            idempotent: 1,
        },
    );
    let case5 = same_profile(
        invariants::profile(&MAT5, 5, 4),
        ElementProfile {
            powers: IndexPeriod {
                index: 1,
                period: 1,
                idempotent: 4,
            },
            frequency: 3,
            diagonal: 1,
            row: 2,
            column: 2,
            commuting: 2,
        },
    );
    counted(counted(start(), case4), case5)
}

// ---- maps

// Compares cases 6 to 13 and returns the tally.
pub fn maps() -> Tally
    ensures answer { result ≡ agreed 30 empty }
{
    let zeros = [0u8; 5];
    let null = [1u8; 9];
    let swap_in_two = Pair {
        source: &SWAP,
        m: 2,
        target: &TWO,
        n: 4,
    };
    let right_in_two = Pair {
        source: &[1, 2, 1, 2],
        m: 2,
        target: &TWO,
        n: 4,
    };
    let left_in_two = Pair {
        source: &[1, 1, 2, 2],
        m: 2,
        target: &TWO,
        n: 4,
    };
    let one_in_two = Pair {
        source: &[1],
        m: 1,
        target: &TWO,
        n: 4,
    };
    let two_onto_two = Pair {
        source: &TWO,
        m: 4,
        target: &TWO,
        n: 4,
    };
    let null3_onto_null3 = Pair {
        source: &null,
        m: 3,
        target: &null,
        n: 3,
    };
    let mat5_onto_mat5 = Pair {
        source: &MAT5,
        m: 5,
        target: &MAT5,
        n: 5,
    };
    let two_in_swap = Pair {
        source: &TWO,
        m: 4,
        target: &SWAP,
        n: 2,
    };
    let case6 = swap_in_two.walk(Kind::Embeddings, zeros, start());
    let case7 = right_in_two.walk(Kind::Embeddings, zeros, case6);
    let case8 = left_in_two.walk(Kind::Embeddings, zeros, case7);
    let case9 = one_in_two.walk(Kind::Embeddings, zeros, case8);
    let case10 = two_onto_two.walk(Kind::Isomorphisms, zeros, case9);
    let case11 = null3_onto_null3.walk(Kind::Isomorphisms, zeros, case10);
    let after = null3_onto_null3.walk(Kind::Isomorphisms, [1, 2, 200, 0, 0], case11);
    let case12 = mat5_onto_mat5.walk(Kind::Isomorphisms, zeros, after);
    two_in_swap.walk(Kind::Embeddings, zeros, case12)
}
