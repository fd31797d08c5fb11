// What a list of elements generates, as a table of its own. Cells, order and list may have any content; the first "no" is the answer, and the buffers then keep
// their bytes.

#![tactic(auto)]

ghost use Rattle.std.specs.Prelude.{◌≡◌, ◌*◌, ◌≤◌, length};
ghost use Rattle.semigroups.specs.InnerLists.{NoRepeats};
ghost use Rattle.semigroups.specs.Tables.{largest_order};
ghost use Rattle.semigroups.specs.Calls.{overwritten};
ghost use Rattle.semigroups.specs.InnerGenerated.{Inside};
ghost use Rattle.semigroups.specs.Subsemigroups.{part_cells};
ghost use Rattle.answers.specs.Answers.{numbered_says};
ghost use Rattle.calls.specs.Subsemigroups.{subsemigroup_says, part_after, elements_after};
ghost use Rattle.products.specs.Tables.{times_of};
ghost use Rattle.parts.specs.InnerParts.{marked_elements, numbering, ClosedPart};

use generated::generate;
use products::Table;
use tables::No;
use tables::limits::PLACES;

// Writes the marked elements, in rising order, to the start of `elements`.
fn write_elements(marks: &[u8; PLACES], n: usize, elements: &mut [u8])
    requires order { n ≤ largest_order }
    requires room { length (marked_elements n marks.now) ≤ length elements.old }
    ensures elements { elements.new ≡ overwritten (marked_elements n marks.now) elements.old }
{
    let mut place: usize = 0;
    for x in 1..n + 1 {
        if marks[x] == 1 {
            elements[place] = x as u8;
            place += 1;
        }
    }
}

// Returns the new numbers of the elements: place x holds the new number of x if x is one of them, else 0.
fn numbers_of(elements: &[u8]) -> [u8; PLACES]
    requires inside { Inside largest_order elements.now }
    requires no_repeats { NoRepeats elements.now }
    ensures answer { result ≡ numbering elements.now }
{
    let mut numbers = [0u8; PLACES];
    for (i, x) in elements.iter().enumerate() {
        numbers[*x as usize] = (i + 1) as u8;
    }
    numbers
}

// Writes the table of these elements, renumbered from 1 in their order, row after row, to the start of `part`.
pub fn write_part(table: &Table<'_>, elements: &[u8], part: &mut [u8])
    requires closed { ClosedPart table.now.order (times_of table.now) elements.now }
    requires room { length elements.now * length elements.now ≤ length part.old }
    ensures part { part.new ≡ overwritten (part_cells (times_of table.now) elements.now) part.old }
{
    let numbers = numbers_of(elements);
    let k = elements.len();
    for (i, x) in elements.iter().enumerate() {
        for (j, y) in elements.iter().enumerate() {
            let xy = table.times(*x as usize, *y as usize);
            part[i * k + j] = numbers[xy];
        }
    }
}

// Writes the elements that the chosen ones generate, in rising order, to the start of `elements` and their table, renumbered, to the start of `part`, and
// answers the order of that table; or answers the earliest question that fails, and writes nothing.
pub fn subsemigroup(
    cells: &[u8],
    n: usize,
    chosen: &[u8],
    part: &mut [u8],
    elements: &mut [u8],
) -> Result<usize, No>
    ensures answer { numbered_says result ≡ subsemigroup_says n cells.now chosen.now (length part.old) (length elements.old) }
    ensures part { part.new ≡ part_after n cells.now chosen.now part.old (length elements.old) }
    ensures elements { elements.new ≡ elements_after n cells.now chosen.now (length part.old) elements.old }
{
    let table = tables::accept(cells, n)?.table;
    if chosen.is_empty() || tables::outside(chosen, n).is_some() {
        return Err(No::Bare(60));
    }
    let generated = generate(&table, chosen);
    let k = generated.count;
    if part.len() < k * k {
        return Err(No::Bare(61));
    }
    if elements.len() < k {
        return Err(No::Bare(62));
    }
    let marks = generated.marks;
    write_elements(&marks, n, elements);
    write_part(&table, &elements[..k], part);
    Ok(k)
}
