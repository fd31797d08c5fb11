// The answers about tables, elements and maps as sixteen numbers, for programs in C and Rust: the number of the earliest failed question, or 0; the side that
// a refusal names, 1 for source or 2 for target, or 0; then the values of the answer, and zeros.

#![tactic(auto)]

ghost use Rattle.std.specs.Prelude.{◌≡◌, ◌≤◌, length};
ghost use Rattle.answers.specs.Answers.{fault_refusal, numbered_says};
ghost use Rattle.invariants.specs.Answers.{index_period_says, profile_says};
ghost use Rattle.maps.specs.Answers.{map_answer_says};
ghost use Rattle.generated.specs.Answers.{generators_fault_refusal};
ghost use Rattle.semigroups.specs.Results.{refusal_in};
ghost use Rattle.numbers.specs.Words.{words};
ghost use Rattle.words.specs.Answers.{numbers_words};
ghost use Rattle.numbers.specs.Numbers.{question_words, answer_words, index_period_values, profile_values, checked_values, number_values};

use generated::GeneratorsFault;
use invariants::{ElementProfile, IndexPeriod};
use maps::{MapFault, MapRefusal};
use tables::{Fault, No, Refusal};

// Returns the number, the side and the values, then zeros.
pub fn words(number: usize, side: usize, values: &[usize]) -> [u64; 16]
    requires few { length values.now ≤ 14 }
    ensures answer { result ≡ words number side values.now }
{
    let mut answer = [0u64; 16];
    answer[0] = number as u64;
    answer[1] = side as u64;
    for (i, value) in values.iter().enumerate() {
        answer[i + 2] = *value as u64;
    }
    answer
}

// Returns the sixteen numbers of a refusal.
pub fn refusal_words(refusal: Refusal) -> [u64; 16]
    ensures answer { result ≡ numbers_words refusal }
{
    let values = [refusal.first, refusal.second, refusal.third];
    words(refusal.number, refusal.side, &values)
}

// Returns the sixteen numbers of the answer to the questions about a table.
pub fn verdict_words(said: Result<(), Fault>) -> [u64; 16]
    ensures answer { result ≡ question_words (refusal_in fault_refusal said) }
{
    match said {
        Ok(()) => [0; 16],
        Err(fault) => refusal_words(fault.refusal()),
    }
}

// Returns the sixteen numbers of an answer about the index-period.
pub fn index_period_words(said: Result<IndexPeriod, No>) -> [u64; 16]
    ensures answer { result ≡ answer_words index_period_values (index_period_says said) }
{
    match said {
        Ok(powers) => words(0, 0, &[powers.index, powers.period, powers.idempotent]),
        Err(no) => refusal_words(no.refusal()),
    }
}

// Returns the sixteen numbers of an answer about the profile.
pub fn profile_words(said: Result<ElementProfile, No>) -> [u64; 16]
    ensures answer { result ≡ answer_words profile_values (profile_says said) }
{
    match said {
        Ok(p) => words(
            0,
            0,
            &[
                p.powers.index,
                p.powers.period,
                p.powers.idempotent,
                p.frequency,
                p.diagonal,
                p.row,
                p.column,
                p.commuting,
            ],
        ),
        Err(no) => refusal_words(no.refusal()),
    }
}

// Returns the sixteen numbers of an answer of the map check.
pub fn map_words(said: Result<Result<(), MapFault>, MapRefusal>) -> [u64; 16]
    ensures answer { result ≡ answer_words checked_values (map_answer_says said) }
{
    match said {
        Err(refused) => refusal_words(refused.refusal()),
        Ok(Ok(())) => words(0, 0, &[0]),
        Ok(Err(MapFault::Outside(i))) => words(0, 0, &[1, i]),
        Ok(Err(MapFault::EqualImages(i, j))) => words(0, 0, &[2, i, j]),
        Ok(Err(MapFault::WrongProduct(i, j))) => words(0, 0, &[3, i, j]),
    }
}

// Returns the sixteen numbers of an answer of the check with generators.
pub fn generators_words(said: Result<(), GeneratorsFault>) -> [u64; 16]
    ensures answer { result ≡ question_words (refusal_in generators_fault_refusal said) }
{
    match said {
        Ok(()) => [0u64; 16],
        Err(fault) => refusal_words(fault.refusal()),
    }
}

// Returns the sixteen numbers of an answer that is a number or a "no".
pub fn numbered_words(said: Result<usize, No>) -> [u64; 16]
    ensures answer { result ≡ answer_words number_values (numbered_says said) }
{
    match said {
        Ok(x) => words(0, 0, &[x]),
        Err(no) => refusal_words(no.refusal()),
    }
}
