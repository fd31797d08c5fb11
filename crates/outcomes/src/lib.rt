// The answers of searches and about least degrees as sixteen numbers, for programs in C and Rust: the number of the earliest failed question, or 0; the side
// that a refusal names, 1 for source or 2 for target, or 0; then the values of the answer, and zeros.

#![tactic(auto)]

ghost use Rattle.std.specs.Prelude.{◌≡◌};
ghost use Rattle.search.specs.Answers.{search_answer_says, limited_answer_says};
ghost use Rattle.planning.specs.Answers.{degree_answer_says};
ghost use Rattle.numbers.specs.Numbers.{answer_words, sought_values, limited_values, degree_values};

use answers::No;
use search::{LimitedAnswer, SearchAnswer};
use words::{refusal_words, words};

// Returns the sixteen numbers of an answer of a search.
pub fn search_words(said: SearchAnswer) -> [u64; 16]
    ensures answer { result ≡ answer_words sought_values (search_answer_says said) }
{
    match said {
        SearchAnswer::Found => words(0, 0, &[1]),
        SearchAnswer::Nothing => words(0, 0, &[0]),
        SearchAnswer::Refused(fault) => refusal_words(fault.refusal()),
    }
}

// Returns the sixteen numbers of an answer of a search with a limit.
pub fn limited_words(said: LimitedAnswer) -> [u64; 16]
    ensures answer { result ≡ answer_words limited_values (limited_answer_says said) }
{
    match said {
        LimitedAnswer::Found(trials) => words(0, 0, &[1, trials as usize]),
        LimitedAnswer::Nothing(trials) => words(0, 0, &[0, trials as usize]),
        LimitedAnswer::Stopped => words(0, 0, &[2]),
        LimitedAnswer::Refused(fault) => refusal_words(fault.refusal()),
    }
}

// Returns the sixteen numbers of an answer about the least degree.
pub fn degree_words(said: Result<Option<usize>, No>) -> [u64; 16]
    ensures answer { result ≡ answer_words degree_values (degree_answer_says said) }
{
    match said {
        Ok(Some(degree)) => words(0, 0, &[degree]),
        Ok(None) => words(0, 0, &[0]),
        Err(no) => refusal_words(no.refusal()),
    }
}
