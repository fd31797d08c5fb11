// The questions that a search asks of its two tables and its buffers, one after another, and the refusal of each.

#![tactic(auto)]

ghost use Rattle.std.specs.Prelude.{◌≡◌, IfOk};
ghost use Rattle.semigroups.specs.Questions.{search_refusal};
ghost use Rattle.semigroups.specs.Results.{refusal_in};
ghost use Rattle.answers.specs.Answers.{side_refusal, refusal_numbers};
ghost use Rattle.questions.specs.Answers.{search_fault_refusal};
ghost use Rattle.calls.specs.Among.{among_refusal};

use tables::{Fault, Pair, Refusal, Side, SideFault};

// The earliest failed question: one of the four about a table, with the side of that table; 5; 6; or 70, which only a search among given pairs asks.
#[derive(Clone, Copy)]
pub enum SearchFault {
    Table(Side, Fault),
    MapLength,
    ScratchLength,
    PairsLength,
}

// A fault of one of the tables.
impl From<SideFault> for SearchFault {
    ghost from_gives = { λ refused r. search_fault_refusal r ≡ side_refusal refused };

    fn from(refused: SideFault) -> Self {
        SearchFault::Table(refused.side, refused.fault)
    }
}

impl SearchFault {
    // Returns the refusal by this fault: its number, side and values.
    pub fn refusal(self) -> Refusal
        ensures answer { result ≡ refusal_numbers (search_fault_refusal self) }
    {
        match self {
            SearchFault::Table(side, fault) => fault.refusal().naming(side),
            SearchFault::MapLength => Refusal::by(5, 0),
            SearchFault::ScratchLength => Refusal::by(6, 0),
            SearchFault::PairsLength => Refusal::by(70, 0),
        }
    }
}

// Asks the questions about the two tables, then those about the map buffer, of length `images`, and about the scratch buffer, of length `marks`. Returns the
// first that fails, or the tables as ones that passed their questions.
pub fn ask<'a>(
    source: &'a [u8],
    m: usize,
    target: &'a [u8],
    n: usize,
    images: usize,
    marks: usize,
) -> Result<Pair<'a>, SearchFault>
    ensures answer { refusal_in search_fault_refusal result ≡ search_refusal m source.now n target.now images marks }
    ensures source { IfOk result (λ pair. (pair.source.table.order ≡ m) × (pair.source.table.cells.now ≡ source.now)) }
    ensures target { IfOk result (λ pair. (pair.target.table.order ≡ n) × (pair.target.table.cells.now ≡ target.now)) }
{
    let pair = tables::accept_pair(source, m, target, n)?;
    if images != m {
        return Err(SearchFault::MapLength);
    }
    if marks < candidates::scratch_size(m, n) {
        return Err(SearchFault::ScratchLength);
    }
    Ok(pair)
}

// Asks the questions of a search, then the one about the pairs buffer, of length `room`. Returns the first that fails, or the tables as ones that passed their
// questions.
pub fn ask_among<'a>(
    source: &'a [u8],
    m: usize,
    target: &'a [u8],
    n: usize,
    images: usize,
    marks: usize,
    room: usize,
) -> Result<Pair<'a>, SearchFault>
    ensures answer { refusal_in search_fault_refusal result ≡ among_refusal m source.now n target.now images marks room }
    ensures source { IfOk result (λ pair. (pair.source.table.order ≡ m) × (pair.source.table.cells.now ≡ source.now)) }
    ensures target { IfOk result (λ pair. (pair.target.table.order ≡ n) × (pair.target.table.cells.now ≡ target.now)) }
{
    let pair = ask(source, m, target, n, images, marks)?;
    if room < candidates::scratch_size(m, n) {
        return Err(SearchFault::PairsLength);
    }
    Ok(pair)
}
