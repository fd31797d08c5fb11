// The questions about a file that holds a table: its bytes are loaded as text, and the table is checked.

#![tactic(auto)]

ghost use Rattle.std.specs.Prelude.{◌≡◌};
ghost use Rattle.answers.specs.Answers.{numbered_says};
ghost use Rattle.rfc4180.specs.Calls.{cells_after};
ghost use Rattle.files.specs.Answers.{file_answer, failed_number};

use tables::No;

// Loads the table that `text` holds into `cells`, as `text::load` does; then asks questions 3 and 4 of it, as `tables::check` does. Returns the order, or the
// earliest "no". If question 3 or 4 fails, the cells have been written all the same.
pub fn load_then_check(text: &[u8], cells: &mut [u8]) -> Result<usize, No>
    ensures answer { numbered_says result ≡ file_answer text.now cells.old }
    ensures cells { cells.new ≡ cells_after text.now cells.old }
{
    let n = text::load(text, cells)?;
    let size = n * n;
    tables::check(&cells[..size], n)?;
    Ok(n)
}

// Returns the number of the question that a file fails, or 0 for an accepted file.
pub fn failed_question(verdict: Result<usize, No>) -> usize
    ensures answer { result ≡ failed_number (numbered_says verdict) }
{
    match verdict {
        Ok(_) => 0,
        Err(no) => no.refusal().number,
    }
}
