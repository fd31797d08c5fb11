// The limits: the largest table and one above, degrees, buffers, fields, and a larger target. The contracts of `degree`, `embedded` and `field` say what is
// compared with what; those of the functions that call them say only how many answers agree, and code that counts without comparing would meet them too.
ghost use Rattle.std.specs.Prelude.{◌≡◌, ◌∷◌, [], ◌≤◌, suc, replicate, false};
ghost use Rattle.semigroups.specs.Transformations.{transformation_cells};
ghost use Rattle.answers.specs.Answers.{numbered_says};
ghost use Rattle.transformations.specs.Calls.{transformation_says, transformation_cells_after};
ghost use Rattle.semigroups.specs.Copies.{same_list};
ghost use Rattle.cases.specs.InnerAnswering.{answer_said, numbered_tally};
ghost use Rattle.plain.specs.InnerSaid.{said_of};
ghost use Rattle.judging.specs.InnerTally.{empty, counted, agreed};
ghost use Rattle.std.proofs.Math.Option.{none};
ghost use Rattle.semigroups.specs.Questions.{table_refusal};
ghost use Rattle.rfc4180.specs.Calls.{load_answer, cells_after as loaded_cells};
ghost use Rattle.judging.specs.InnerSaid.{same_said};
ghost use Rattle.cases.specs.InnerEmbedded.{mat5_cells, embedded_tally};
ghost use Rattle.comparisons.specs.InnerWalking.{walk_calls};
ghost use Rattle.semigroups.specs.Maps.{embeddings};

use crate::worked::{MAT5, SWAP, TWO};
use comparisons::said::search_said;
use comparisons::walk::Pair;
use judging::judged::judged;
use judging::said::said_of_no;
use judging::tally::{Tally, counted, start};
use kinds::Kind;
use plain::{Said, failed};
use tables::No;

// Compares the answers about a table of order 120, which is accepted, and of order 121, which is refused. Returns the tally.
pub fn orders() -> Tally
    ensures answer { result ≡ agreed 3 (counted empty (same_said (said_of (table_refusal 120 (replicate 14400 1))) (said_of none))) }
{
    let most = [1u8; 14400];
    let accepted = judged(&most, 120, Ok(()), start());
    let more = [1u8; 14641];
    judged(&more, 121, Err(failed(1, 0)), accepted)
}

// Returns whether two buffers hold the same bytes.
pub fn same_bytes(a: &[u8], b: &[u8]) -> bool
    ensures answer { result ≡ same_list a.now b.now }
{
    a == b
}

// Returns the answer, with the "no" as numbers.
fn numbered_said(answer: Result<usize, No>) -> Result<usize, Said>
    ensures answer { result ≡ answer_said (numbered_says answer) }
{
    match answer {
        Ok(n) => Ok(n),
        Err(no) => Err(said_of_no(no)),
    }
}

// Compares what a call answers with `said`, and its buffer after the call with `after`. Returns the tally.
fn numbered_told(
    answer: Result<usize, No>,
    said: Result<usize, Said>,
    buffer: &[u8],
    after: &[u8],
    tally: Tally,
) -> Tally
    ensures answer { result ≡ numbered_tally (numbered_says answer) said buffer.now after.now tally }
{
    let answered = counted(tally, numbered_said(answer) == said);
    counted(answered, same_bytes(buffer, after))
}

// ---- degrees

// Asks for a table of degree d with a buffer of 20 cells, and compares the answer and the buffer after the call. Returns the tally.
fn degree(d: usize, said: Result<usize, Said>, after: [u8; 20], tally: Tally) -> Tally
    ensures answer { result ≡ numbered_tally (transformation_says d 20) said (transformation_cells_after d (replicate 20 7)) after tally }
{
    let mut cells = [7u8; 20];
    let answer = transformations::fill(d, &mut cells);
    numbered_told(answer, said, &cells, &after, tally)
}

// Compares the answers for degrees 1 to 4: 1 and 2 are made, 3 has more cells than the buffer, and 4 is refused. Returns the tally.
pub fn degrees() -> Tally
    ensures answer { result ≡ agreed 8 empty }
{
    let left = [7u8; 20];
    let single = [1, 7, 7, 7, 7, 7, 7, 7, 7, 7, 7, 7, 7, 7, 7, 7, 7, 7, 7, 7];
    let one = degree(1, Ok(1), single, start());
    let square = [1, 1, 4, 4, 1, 2, 3, 4, 1, 3, 2, 4, 1, 4, 1, 4, 7, 7, 7, 7];
    let two = degree(2, Ok(4), square, one);
    let three = degree(3, Err(failed(9, 0)), left, two);
    degree(4, Err(failed(8, 0)), left, three)
}

// Compares the answer for the table of all transformations of three points, whose order is 27, and the walk through the embeddings of mat5 in it. Returns the
// tally.
pub fn large_target() -> Tally
    ensures answer { result ≡ agreed (suc (walk_calls embeddings mat5_cells 5 (transformation_cells 3) 27 (replicate 5 0))) empty }
{
    let mut cells = [0u8; 729];
    let answer = numbered_said(transformations::fill(3, &mut cells));
    let answered = counted(start(), answer == Ok(27));
    let pair = Pair {
        source: &MAT5,
        m: 5,
        target: &cells,
        n: 27,
    };
    pair.walk(plain::Kind::Embeddings, [0; 5], answered)
}

// ---- buffers and fields

// Asks for the first embedding of swap in two with a scratch buffer of `size` bytes, and compares the answer and both buffers after the call. Returns the
// tally.
fn embedded(
    size: usize,
    said: Result<bool, usize>,
    map: [u8; 2],
    scratch: [u8; 3],
    tally: Tally,
) -> Tally
    requires { size ≤ 3 }
    ensures answer { result ≡ embedded_tally size said map scratch tally }
{
    let mut images = [0u8; 2];
    let mut marks = [255u8; 3];
    let answer = search::first(
        Kind::Embeddings,
        &SWAP,
        2,
        &TWO,
        4,
        &mut images,
        &mut marks[..size],
    );
    let answered = counted(tally, search_said(answer) == said);
    let mapped = counted(answered, same_bytes(&images, &map));
    counted(mapped, same_bytes(&marks, &scratch))
}

// Compares a search with no byte of scratch, which is refused and changes nothing, and one with one byte, which is enough for 2 x 4 pairs. Returns the tally.
pub fn scratch() -> Tally
    ensures answer { result ≡ agreed 6 empty }
{
    let short = embedded(0, Err(6), [0, 0], [255; 3], start());
    embedded(1, Ok(true), [2, 3], [75, 255, 255], short)
}

// Loads a text of one field, and compares the answer and the cell that is written, if one is. Returns the tally.
fn field(text: &[u8], said: Result<usize, Said>, cell: u8, tally: Tally) -> Tally
    ensures answer { result ≡ numbered_tally (load_answer text.now (7 ∷ 7 ∷ [])) said (loaded_cells text.now (7 ∷ 7 ∷ [])) (cell ∷ 7 ∷ []) tally }
{
    let mut cells = [7u8; 2];
    let answer = text::load(text, &mut cells);
    numbered_told(answer, said, &cells, &[cell, 7], tally)
}

// Compares the answers for four texts of one field: 120 passes, 121 fails question 25, and 0 and 0001 fail question 24. Returns the tally.
pub fn fields() -> Tally
    ensures answer { result ≡ agreed 8 empty }
{
    let most = field(b"120\r\n", Ok(1), 120, start());
    let above = field(b"121\r\n", Err(failed(25, 0)), 7, most);
    let zero = field(b"0\r\n", Err(failed(24, 0)), 7, above);
    field(b"0001\r\n", Err(failed(24, 0)), 7, zero)
}
