// The program `recue`, from the bytes of its two files to the bytes that it prints: RFC 4180 text, whose first record begins with found, none or refused;
// after found there is a record for each source element.

#![tactic(auto)]

ghost use Rattle.std.specs.Prelude.{◌≡◌, ◌∷◌, [], ◌+◌, ◌*◌, ◌≤◌, ◌<◌, length};
ghost use Rattle.std.proofs.lemmas.List.Edits.{sets};
ghost use Rattle.semigroups.specs.Tables.{largest_order, Accepted};
ghost use Rattle.semigroups.specs.Calls.{overwritten};
ghost use Rattle.rfc4180.specs.Decimals.{numeral};
ghost use Rattle.rfc4180.specs.Records.{line_text, rows_text};
ghost use Rattle.output.specs.Records.{first_record, pair_records, found_records};
ghost use Rattle.output.specs.Program.{answer_records, recue_output};
ghost use Rattle.output.specs.InnerLength.{longest_output};

use files::{failed_question, load_then_check};
use kinds::Kind;
use lines::{put_break, put_field, put_number, put_record};
use tables::limits::{CELLS, ORDER, OUTPUT, SCRATCH};

// Writes the record of a word and two numbers to the start of `out`. Returns its length.
fn put_first(out: &mut [u8], word: &[u8], a: usize, b: usize) -> usize
    requires small { (a < 1000) × (b < 1000) }
    requires room { length word.now + 10 ≤ length out.old }
    ensures answer { result ≡ length (line_text (first_record word.now a b)) }
    ensures out { out.new ≡ sets out.old 0 (line_text (first_record word.now a b)) }
{
    put_record(out, 0, word, a, b)
}

// Writes the record of an element and its image at `at`. Returns the place after it.
fn put_pair(out: &mut [u8], at: usize, i: usize, image: usize) -> usize
    requires small { (i < 1000) × (image < 1000) }
    requires room { at + length (line_text (numeral i ∷ numeral image ∷ [])) ≤ length out.old }
    ensures answer { result ≡ at + length (line_text (numeral i ∷ numeral image ∷ [])) }
    ensures out { out.new ≡ sets out.old at (line_text (numeral i ∷ numeral image ∷ [])) }
{
    let mut place = put_number(out, at, i);
    place = put_field(out, place, image);
    put_break(out, place)
}

// Writes a record for each element of the map at `start`. Returns the place after them.
fn put_pairs(out: &mut [u8], start: usize, map: &[u8]) -> usize
    requires small { length map.now ≤ largest_order }
    requires room { start + 9 * length map.now ≤ length out.old }
    ensures answer { result ≡ start + length (rows_text (pair_records (length map.now) map.now)) }
    ensures out { out.new ≡ sets out.old start (rows_text (pair_records (length map.now) map.now)) }
{
    let mut at = start;
    for (i, image) in map.iter().enumerate() {
        at = put_pair(out, at, i + 1, *image as usize);
    }
    at
}

// Writes the records of a map that was found, whose target has order n, to the start of `out`. Returns their length.
fn put_found(out: &mut [u8], n: usize, map: &[u8]) -> usize
    requires small { (length map.now ≤ largest_order) × (n ≤ largest_order) }
    requires room { longest_output ≤ length out.old }
    ensures answer { result ≡ length (rows_text (found_records (length map.now) n map.now)) }
    ensures out { out.new ≡ overwritten (rows_text (found_records (length map.now) n map.now)) out.old }
{
    let at = put_first(out, b"found", map.len(), n);
    put_pairs(out, at, map)
}

// Searches for the first embedding of one table in another and writes the answer, found or none, to the start of `out`. Returns its length. The map buffer
// has the right length and scratch is enough for the largest tables, so no question is asked.
fn put_answer(out: &mut [u8; OUTPUT], source: &[u8], m: usize, target: &[u8], n: usize) -> usize
    requires tables { Accepted m source.now × Accepted n target.now }
    ensures answer { result ≡ length (rows_text (answer_records m source.now n target.now)) }
    ensures out { out.new ≡ overwritten (rows_text (answer_records m source.now n target.now)) out.old }
{
    let mut map = [0u8; ORDER];
    let mut scratch = [0u8; SCRATCH];
    let found = kinds::find(
        Kind::Embeddings,
        false,
        source,
        m,
        target,
        n,
        &mut map[..m],
        &mut scratch,
    );
    if !found {
        return put_first(out, b"none", m, n);
    }
    put_found(out, n, &map[..m])
}

// Writes the whole output of the program for files with these bytes to the start of `out`. Returns its length.
pub fn recue(source: &[u8], target: &[u8], out: &mut [u8; OUTPUT]) -> usize
    ensures answer { result ≡ length (recue_output source.now target.now) }
    ensures out { out.new ≡ overwritten (recue_output source.now target.now) out.old }
{
    let mut source_cells = [0u8; CELLS];
    let first = load_then_check(source, &mut source_cells);
    let Ok(m) = first else {
        return put_first(out, b"refused", 1, failed_question(first));
    };
    let mut target_cells = [0u8; CELLS];
    let second = load_then_check(target, &mut target_cells);
    let Ok(n) = second else {
        return put_first(out, b"refused", 2, failed_question(second));
    };
    let source_size = m * m;
    let target_size = n * n;
    put_answer(
        out,
        &source_cells[..source_size],
        m,
        &target_cells[..target_size],
        n,
    )
}
