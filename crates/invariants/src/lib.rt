// Invariants of the elements of a table (arXiv 1603.06204, sections 3 and 4; RULES 4): index, period and idempotent power, and the profile. `index_period`
// and `profile` answer for one element; cells, order and element may have any content, and the questions about them are asked first. `all_index_period_keys`
// returns the index and the period of every element, for cells that fill a table.

#![tactic(auto)]

ghost use Rattle.std.specs.Prelude.{◌≡◌, IfOk};
ghost use Rattle.semigroups.specs.Tables.{product, Element};
ghost use Rattle.semigroups.specs.Questions.{element_refusal};
ghost use Rattle.semigroups.specs.Invariants.{index_period, profile};
ghost use Rattle.semigroups.specs.Calls.{given_unless};
ghost use Rattle.products.specs.Tables.{times_of};
ghost use Rattle.invariants.specs.Answers.{element_verdict_refusal, index_period_value, index_period_says, profile_value, profile_says};
ghost use Rattle.invariants.specs.InnerPerElement.{AllIndexPeriodKeys};
ghost use Rattle.invariants.specs.InnerPowers.{settled};

use counts::{column_frequency, commuting, count, row_frequency};
use tables::limits::{ORDER, PLACES};
use tables::{No, Semigroup, Table};

pub mod old;

// ---- the questions

// Asks the table's four questions, then 7: is the element 1 to n? Returns the first that fails, or the table as one that passed its questions.
pub fn check_element(cells: &[u8], n: usize, a: usize) -> Result<Semigroup<'_>, No>
    ensures answer { element_verdict_refusal result ≡ element_refusal n cells.now a }
    ensures table { IfOk result (λ accepted. (accepted.table.order ≡ n) × (accepted.table.cells.now ≡ cells.now)) }
    ensures element { IfOk result (λ accepted. Element accepted.table.order a) }
{
    let accepted = tables::accept(cells, n)?;
    if a < 1 || n < a {
        return Err(No::Bare(7));
    }
    Ok(accepted)
}

// ---- index, period and idempotent power

// The index and the period of an element, and its idempotent power (RULES 4.4).
#[derive(Clone, Copy)]
pub struct IndexPeriod {
    pub index: usize,
    pub period: usize,
    pub idempotent: usize,
}

// Returns the index and the period of a, and the power of a whose exponent is the first multiple of the period that is no less than the index; where the
// table is associative, that is the idempotent power. The powers of a are walked until one is met again; `met` holds the exponent at which each element was
// met first, or 0, and `walk` holds power k at place k - 1. The walk has the powers with exponents below index + period, so the last multiple of the period
// among these is the one meant.
fn index_period_of(table: &Table<'_>, a: usize) -> IndexPeriod
    requires element { Element table.now.order a }
    ensures answer { index_period_value result ≡ settled table.now.order (times_of table.now) a }
{
    let mut met = [0u8; PLACES];
    let mut walk = [0u8; ORDER];
    let mut power = a;
    let mut k: usize = 1;
    // A while: the walk ends at a power that was met before.
    while met[power] == 0 {
        met[power] = k as u8;
        walk[k - 1] = power as u8;
        power = table.times(power, a);
        k += 1;
    }
    let index = met[power] as usize;
    let period = k - index;
    let exponent = (k - 1) / period * period;
    let idempotent = walk[exponent - 1] as usize;
    IndexPeriod {
        index,
        period,
        idempotent,
    }
}

// Answers the index, the period and the idempotent power of element a; or the first question that fails.
pub fn index_period(cells: &[u8], n: usize, a: usize) -> Result<IndexPeriod, No>
    ensures answer { index_period_says result ≡ given_unless (element_refusal n cells.now a) (index_period n (product n cells.now) a) }
{
    let accepted = check_element(cells, n, a)?;
    Ok(index_period_of(&accepted.table, a))
}

// The keys by which candidates for embeddings are compared: the index and the period of element a stand at place a - 1; places after the last element hold 0.
// The idempotent power is not compared. Two arrays: crate `candidates` appends one after the other to its keys.
#[derive(Clone, Copy)]
pub struct IndexPeriodKeys {
    pub index: [u16; ORDER],
    pub period: [u16; ORDER],
}

// Returns the index and the period of every element.
pub fn all_index_period_keys(table: &Table<'_>) -> IndexPeriodKeys
    ensures answer { AllIndexPeriodKeys table.now.order (times_of table.now) result }
{
    let mut index = [0u16; ORDER];
    let mut period = [0u16; ORDER];
    for a in 1..table.order + 1 {
        let powers = index_period_of(table, a);
        index[a - 1] = powers.index as u16;
        period[a - 1] = powers.period as u16;
    }
    IndexPeriodKeys { index, period }
}

// ---- the profile

// The index-period and the counts of a profile (definition 4.1; RULES 4.5).
#[derive(Clone, Copy)]
pub struct ElementProfile {
    pub powers: IndexPeriod,
    pub frequency: usize,
    pub diagonal: usize,
    pub row: usize,
    pub column: usize,
    pub commuting: usize,
}

// Returns the profile of element a.
fn profile_of(accepted: &Semigroup<'_>, a: usize) -> ElementProfile
    requires element { Element accepted.now.table.order a }
    ensures answer { profile_value result ≡ profile accepted.now.table.order (times_of accepted.now.table) a }
{
    let table = accepted.table;
    let n = table.order;
    ElementProfile {
        powers: index_period_of(&table, a),
        frequency: count(table.cells, table.cells.len(), 1, a),
        diagonal: count(table.cells, n, n + 1, a),
        row: row_frequency(&table, a),
        column: column_frequency(&table, a),
        commuting: commuting(&table, a),
    }
}

// Answers the profile of element a; or the first question that fails.
pub fn profile(cells: &[u8], n: usize, a: usize) -> Result<ElementProfile, No>
    ensures answer { profile_says result ≡ given_unless (element_refusal n cells.now a) (profile n (product n cells.now) a) }
{
    let accepted = check_element(cells, n, a)?;
    Ok(profile_of(&accepted, a))
}
