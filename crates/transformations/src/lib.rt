// The tables of all transformations of one to three points, written to a lent buffer. An invalid degree or a buffer that is too small is refused, and the
// buffer then keeps its bytes.

#![tactic(auto)]

ghost use Rattle.std.specs.Prelude.{◌≡◌, length};
ghost use Rattle.semigroups.specs.Calls.{given_unless, written_unless};
ghost use Rattle.answers.specs.Answers.{numbered_says};
ghost use Rattle.transformations.specs.Calls.{transformation_says, transformation_cells_after};
ghost use Rattle.transformations.specs.InnerQuestions.{room_refusal};

use tables::No;

// Writes a table of order n to the start of `cells` and returns its order; or returns the refusal by question 9, and writes nothing, if there is no room.
fn put(n: usize, table: &[u8], cells: &mut [u8]) -> Result<usize, No>
    ensures answer { numbered_says result ≡ given_unless (room_refusal (length table.now) (length cells.old)) n }
    ensures cells { cells.new ≡ written_unless (room_refusal (length table.now) (length cells.old)) table.now cells.old }
{
    if cells.len() < table.len() {
        return Err(No::Bare(9));
    }
    cells[..table.len()].copy_from_slice(table);
    Ok(n)
}

// Writes the table of all transformations of `degree` points to the start of `cells` and answers its order; or, if question 8 or 9 fails, answers which, and
// writes nothing.
pub fn fill(degree: usize, cells: &mut [u8]) -> Result<usize, No>
    ensures answer { numbered_says result ≡ transformation_says degree (length cells.old) }
    ensures cells { cells.new ≡ transformation_cells_after degree cells.old }
{
    match degree {
        1 => put(1, &stored::degree_1(), cells),
        2 => put(4, &stored::degree_2(), cells),
        3 => put(27, &stored::degree_3(), cells),
        _ => Err(No::Bare(8)),
    }
}
