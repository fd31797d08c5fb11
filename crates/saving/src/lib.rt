// Saves Cayley tables as RFC 4180 text: a record for each row, a decimal field for each cell, each record closed by CR LF. `save` asks questions 1, 2, 3 and
// 28; a refusal changes no byte. The definitions that the contracts cite are in the crate `rfc4180`.

#![tactic(auto)]

ghost use Rattle.std.specs.Prelude.{◌≡◌, ◌+◌, ◌≤◌, length};
ghost use Rattle.std.proofs.lemmas.List.Edits.{sets};
ghost use Rattle.semigroups.specs.Tables.{Element, Filled};
ghost use Rattle.semigroups.specs.Calls.{overwritten};
ghost use Rattle.rfc4180.specs.Records.{line_text};
ghost use Rattle.rfc4180.specs.Tables.{row_fields, table_text};
ghost use Rattle.rfc4180.specs.Calls.{save_answer, text_after};
ghost use Rattle.answers.specs.Answers.{numbered_says};

use tables::No;

// Returns the length of the text of a table: each cell is followed by a comma or a CR, each row by an LF.
fn text_length(cells: &[u8], n: usize) -> usize
    requires { Filled n cells.now }
    ensures answer { result ≡ length (table_text n cells.now) }
{
    let mut total = n;
    for cell in cells {
        total += lines::digit_count(usize::from(*cell)) + 1;
    }
    total
}

// Writes row i of a table at `start`, with its line break. Returns the place after it.
fn put_row(cells: &[u8], n: usize, i: usize, text: &mut [u8], start: usize) -> usize
    requires table { Filled n cells.now }
    requires row { Element n i }
    requires room { start + length (line_text (row_fields n cells.now i)) ≤ length text.old }
    ensures answer { result ≡ start + length (line_text (row_fields n cells.now i)) }
    ensures text { text.new ≡ sets text.old start (line_text (row_fields n cells.now i)) }
{
    let mut at = lines::put_number(text, start, tables::times(cells, n, i, 1));
    for j in 2..n + 1 {
        at = lines::put_field(text, at, tables::times(cells, n, i, j));
    }
    lines::put_break(text, at)
}

// Writes the text of a table to the start of `text`. Returns its length.
fn put_rows(cells: &[u8], n: usize, text: &mut [u8]) -> usize
    requires table { Filled n cells.now }
    requires room { length (table_text n cells.now) ≤ length text.old }
    ensures answer { result ≡ length (table_text n cells.now) }
    ensures text { text.new ≡ overwritten (table_text n cells.now) text.old }
{
    let mut at = 0;
    for i in 1..n + 1 {
        at = put_row(cells, n, i, text, at);
    }
    at
}

// Saves the table of this order with these cells: writes its text to the start of `text` and answers its length; or answers the earliest
// question that fails, and writes nothing.
pub fn save(cells: &[u8], order: usize, text: &mut [u8]) -> Result<usize, No>
    ensures answer { numbered_says result ≡ save_answer order cells.now text.old }
    ensures text { text.new ≡ text_after order cells.now text.old }
{
    tables::check_cells(cells, order)?;
    if text.len() < text_length(cells, order) {
        return Err(No::Bare(28));
    }
    Ok(put_rows(cells, order, text))
}
