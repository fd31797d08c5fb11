// Loads Cayley tables from RFC 4180 text: a record for each row, a decimal field for each cell, each record closed by CR LF, which the last may lack. `load`
// asks questions 20, 21, 23 to 27 and 1 of a text; a refusal changes no byte. The definitions that the contracts cite, and the proof that saving and loading
// undo each other, are in the crate `rfc4180`.

#![tactic(auto)]

ghost use Rattle.std.specs.Prelude.{◌≡◌, true, ◌-◌, ◌≤◌, length, drop, get_or};
ghost use Rattle.std.proofs.Math.Option.{none};
ghost use Rattle.rfc4180.specs.InnerCursor.{digits, field_end};
ghost use Rattle.rfc4180.specs.Decimals.{is_digit, value};
ghost use Rattle.rfc4180.specs.Tables.{fields_of, order_of, cells_of};
ghost use Rattle.rfc4180.specs.InnerQuestions.{bytes_refusal, fields_refusal, grid_refusal, field_refusal};
ghost use Rattle.semigroups.specs.Calls.{overwritten};
ghost use Rattle.rfc4180.specs.Calls.{load_answer, cells_after};
ghost use Rattle.semigroups.specs.Results.{refusal_in};
ghost use Rattle.answers.specs.Answers.{no_refusal, numbered_says};
ghost use Rattle.text.specs.InnerFields.{field_at};

use answers::No;
use products::limits::{ORDER, TEXT};

// Asks question 21: is every byte a digit, a comma, or part of a CR LF pair? Returns that it passes, or the place of the first other byte.
fn judge_bytes(text: &[u8]) -> Result<(), No>
    ensures answer { refusal_in no_refusal result ≡ bytes_refusal text.now }
{
    let mut i = 0;
    // A while: a step is one byte, or the two of a line break.
    while i < text.len() {
        match text[i] {
            48..=57 => i += 1,
            44 => i += 1,
            13 if 2 <= text.len() - i && text[i + 1] == 10 => i += 2,
            _ => return Err(No::With(21, i)),
        }
    }
    Ok(())
}

// Returns the place after the digits that stand from `at` on.
fn digits_end(text: &[u8], at: usize) -> usize
    requires { at ≤ length text.now }
    ensures answer { result ≡ field_end text.now at }
{
    at + text[at..].iter().take_while(|b| b.is_ascii_digit()).count()
}

// Returns whether a digit stands at `at`. Past the end of the text there is none.
fn digit_stands(text: &[u8], at: usize) -> bool
    ensures answer { result ≡ is_digit (get_or text.now at 0) }
{
    at < text.len() && text[at].is_ascii_digit()
}

// Returns the place after the field that begins at `at`. A field that passes question 23 has at most three digits: these are looked at one by one, which is
// quicker than a loop.
fn field_end(text: &[u8], at: usize) -> usize
    requires { at ≤ length text.now }
    ensures answer { result ≡ field_end text.now at }
{
    if !digit_stands(text, at) {
        return at;
    }
    if !digit_stands(text, at + 1) {
        return at + 1;
    }
    if !digit_stands(text, at + 2) {
        return at + 2;
    }
    digits_end(text, at + 3)
}

// Returns the number that the digit at `at` stands for.
fn digit_value(text: &[u8], at: usize) -> usize
    requires digit { is_digit (get_or text.now at 0) ≡ true }
    ensures answer { result ≡ get_or text.now at 0 - 48 }
{
    usize::from(text[at] - 48)
}

// Returns the number that the digits from `at` to `end` stand for. There are one to three.
fn read_number(text: &[u8], at: usize, end: usize) -> usize
    requires whole { end ≡ field_end text.now at }
    requires some { 1 ≤ length (digits (drop at text.now)) }
    requires short { length (digits (drop at text.now)) ≤ 3 }
    ensures answer { result ≡ value (digits (drop at text.now)) }
{
    let one = digit_value(text, at);
    if end - at < 2 {
        return one;
    }
    let two = one * 10 + digit_value(text, at + 1);
    if end - at < 3 {
        return two;
    }
    two * 10 + digit_value(text, at + 2)
}

// Asks questions 24, 23 and 25 about the field of digits from `at` to `end`. Returns the first that fails. An empty field passes question 24.
fn judge_field(text: &[u8], at: usize, end: usize) -> Result<(), No>
    requires inside { at ≤ length text.now }
    requires whole { end ≡ field_end text.now at }
    ensures answer { refusal_in no_refusal result ≡ field_refusal (digits (drop at text.now)) }
{
    if end - at < 1 {
        return Err(No::Bare(23));
    }
    if text[at] == 48 {
        return Err(No::Bare(24));
    }
    if 3 < end - at {
        return Err(No::Bare(23));
    }
    if ORDER < read_number(text, at, end) {
        return Err(No::Bare(25));
    }
    Ok(())
}

// A field of the text: the place after it; whether a comma follows it, so that its record goes on; and where the next field begins, if there is one.
#[derive(Clone, Copy)]
struct Field {
    end: usize,
    comma: bool,
    next: Option<usize>,
}

// Returns the field that begins at `at`. At the end of the text the field is empty.
fn next_field(text: &[u8], at: usize) -> Field
    requires { at ≤ length text.now }
    ensures answer { result ≡ field_at text.now at }
{
    let end = field_end(text, at);
    if text.len() <= end {
        return Field {
            end,
            comma: false,
            next: None,
        };
    }
    if text[end] == 44 {
        return Field {
            end,
            comma: true,
            next: Some(end + 1),
        };
    }
    Field {
        end,
        comma: false,
        next: (end + 2 < text.len()).then_some(end + 2),
    }
}

// Returns the number of fields of the first record.
fn columns(text: &[u8]) -> usize
    requires some { 1 ≤ length text.now }
    requires bytes { bytes_refusal text.now ≡ none }
    ensures answer { result ≡ order_of text.now }
{
    let mut n = 0;
    let mut at = 0;
    // A loop: a field that is read says where the next one begins. So in the two functions below.
    loop {
        let field = next_field(text, at);
        n += 1;
        if !field.comma {
            return n;
        }
        at = field.end + 1;
    }
}

// Asks questions 24, 23 and 25 about each field; then, if they pass, 26: are there n records, each with n fields? Returns the first that fails.
fn judge_fields(text: &[u8], n: usize) -> Result<(), No>
    requires some { 1 ≤ length text.now }
    requires bytes { bytes_refusal text.now ≡ none }
    ensures answer { refusal_in no_refusal result ≡ grid_refusal n text.now }
{
    let mut at = 0;
    let mut row = 0;
    let mut column = 0;
    let mut square = true;
    loop {
        let field = next_field(text, at);
        judge_field(text, at, field.end)?;
        column += 1;
        if field.comma {
            at = field.end + 1;
            continue;
        }
        square &= column == n;
        column = 0;
        row += 1;
        match field.next {
            Some(next) => at = next,
            None if square && row == n => return Ok(()),
            None => return Err(No::Bare(26)),
        }
    }
}

// Writes the number of each field to `cells`, in reading order.
fn fill(text: &[u8], cells: &mut [u8])
    requires some { 1 ≤ length text.now }
    requires bytes { bytes_refusal text.now ≡ none }
    requires numbers { fields_refusal (fields_of text.now) ≡ none }
    requires room { length (cells_of text.now) ≤ length cells.old }
    ensures cells { cells.new ≡ overwritten (cells_of text.now) cells.old }
{
    let mut at = 0;
    let mut k: usize = 0;
    loop {
        let field = next_field(text, at);
        cells[k] = read_number(text, at, field.end) as u8;
        k += 1;
        let Some(next) = field.next else {
            return;
        };
        at = next;
    }
}

// Loads the table that `text` holds: writes its cells, row by row, to the start of `cells` and answers its order; or answers the earliest question that
// fails, and writes nothing.
pub fn load(text: &[u8], cells: &mut [u8]) -> Result<usize, No>
    ensures answer { numbered_says result ≡ load_answer text.now cells.old }
    ensures cells { cells.new ≡ cells_after text.now cells.old }
{
    if text.is_empty() || TEXT < text.len() {
        return Err(No::Bare(20));
    }
    judge_bytes(text)?;
    let n = columns(text);
    judge_fields(text, n)?;
    if ORDER < n {
        return Err(No::Bare(1));
    }
    if cells.len() < n * n {
        return Err(No::Bare(27));
    }
    fill(text, cells);
    Ok(n)
}
