// The four questions about a table, given as an order and cells of any content. The first "no" is the answer, with its cell or triple.

#![tactic(auto)]

ghost use Rattle.std.specs.Prelude.{◌≡◌, IfOk};
ghost use Rattle.std.proofs.Math.Option.{map};
ghost use Rattle.semigroups.specs.Lists.{all};
ghost use Rattle.semigroups.specs.Tables.{Associative, is_element, bad_cell, bad_triple};
ghost use Rattle.semigroups.specs.InnerQuestions.{no, naming, cells_refusal, tables_refusal};
ghost use Rattle.semigroups.specs.Questions.{table_refusal};
ghost use Rattle.semigroups.specs.Results.{optional, refusal_in};
ghost use Rattle.answers.specs.Answers.{fault_refusal, side_refusal, side_number};
ghost use Rattle.products.specs.Tables.{times_of};

pub use answers::{Fault, No, Refusal, Side, SideFault};
pub use products::old::times;
pub use products::{Table, limits};

// A table that passed the four questions.
#[derive(Clone, Copy)]
pub struct Semigroup<'a> {
    pub table: Table<'a>,
    pub ghost associative: { Associative table.order (times_of table) },
}

// The two tables of a call, both of which passed the four questions.
#[derive(Clone, Copy)]
pub struct Pair<'a> {
    pub source: Semigroup<'a>,
    pub target: Semigroup<'a>,
}

// ---- cells

// Returns whether every cell is 1 to n: by the smallest and the largest one, which is quicker than to look for the first that is not.
fn inside(cells: &[u8], n: usize) -> bool
    ensures answer { result ≡ all (is_element n) cells.now }
{
    let mut least: u8 = 255;
    let mut most: u8 = 0;
    for cell in cells {
        least = least.min(*cell);
        most = most.max(*cell);
    }
    1 <= least && most as usize <= n
}

// Returns the place of the first cell that is not 1 to n, counted from 1; or none.
fn first_outside(cells: &[u8], n: usize) -> Option<usize>
    ensures answer { optional result ≡ bad_cell n cells.now }
{
    (1..cells.len() + 1).find(|place| {
        let cell = cells[*place - 1] as usize;
        cell < 1 || n < cell
    })
}

// Returns the place of the first cell that is not 1 to n, counted from 1; or none. Looks for it only if there is one.
pub fn outside(cells: &[u8], n: usize) -> Option<usize>
    ensures answer { optional result ≡ bad_cell n cells.now }
{
    if inside(cells, n) {
        return None;
    }
    first_outside(cells, n)
}

// ---- triples

// Returns the first triple for which (i·j)·k = i·(j·k) does not hold, if there is one.
fn associative(table: &Table<'_>) -> Result<(), Fault>
    ensures answer { refusal_in fault_refusal result ≡ map (λ l. no 4 l) (bad_triple table.now.order (times_of table.now)) }
{
    let n = table.order;
    let mut answer = Ok(());
    'triples: for i in 1..n + 1 {
        for j in 1..n + 1 {
            let ij = table.times(i, j);
            for k in 1..n + 1 {
                let jk = table.times(j, k);
                if table.times(ij, k) != table.times(i, jk) {
                    answer = Err(Fault::Triple(i, j, k));
                    break 'triples;
                }
            }
        }
    }
    answer
}

// Asks question 4: does (i·j)·k = i·(j·k) hold for every triple? Returns the first triple that fails, if one does. Where few generators show that the table
// is associative, not every triple is looked at.
fn associativity(table: &Table<'_>) -> Result<(), Fault>
    ensures answer { refusal_in fault_refusal result ≡ map (λ l. no 4 l) (bad_triple table.now.order (times_of table.now)) }
{
    if light::accept(table) {
        return Ok(());
    }
    associative(table)
}

// ---- the questions

// Asks questions 1 to 3, about order, size and cells. Returns the first that fails, or the table.
pub fn check_cells(cells: &[u8], n: usize) -> Result<Table<'_>, Fault>
    ensures answer { refusal_in fault_refusal result ≡ cells_refusal n cells.now }
    ensures table { IfOk result (λ table. (table.order ≡ n) × (table.cells.now ≡ cells.now)) }
{
    if n < 1 || limits::ORDER < n {
        return Err(Fault::Order);
    }
    if cells.len() != n * n {
        return Err(Fault::Size);
    }
    match outside(cells, n) {
        Some(cell) => Err(Fault::Cell(cell)),
        None => Ok(Table { cells, order: n }),
    }
}

// Asks questions 1 to 4, about order, size, cells and associativity. Returns the first that fails, or the table as one that passed them.
pub fn accept(cells: &[u8], n: usize) -> Result<Semigroup<'_>, Fault>
    ensures answer { refusal_in fault_refusal result ≡ table_refusal n cells.now }
    ensures table { IfOk result (λ accepted. (accepted.table.order ≡ n) × (accepted.table.cells.now ≡ cells.now)) }
{
    let table = check_cells(cells, n)?;
    associativity(&table)?;
    Ok(Semigroup { table })
}

// Asks questions 1 to 4, about order, size, cells and associativity. Returns the first that fails.
pub fn check(cells: &[u8], n: usize) -> Result<(), Fault>
    ensures answer { refusal_in fault_refusal result ≡ table_refusal n cells.now }
{
    accept(cells, n)?;
    Ok(())
}

// Asks questions 1 to 4 of one of two tables.
fn accept_side(side: Side, cells: &[u8], n: usize) -> Result<Semigroup<'_>, SideFault>
    ensures answer { refusal_in side_refusal result ≡ map (naming (side_number side)) (table_refusal n cells.now) }
    ensures table { IfOk result (λ accepted. (accepted.table.order ≡ n) × (accepted.table.cells.now ≡ cells.now)) }
{
    accept(cells, n).map_err(|fault| SideFault { side, fault })
}

// Asks questions 1 to 4 of the source, then of the target. Returns the first that fails, or both tables as ones that passed them.
pub fn accept_pair<'a>(
    source: &'a [u8],
    m: usize,
    target: &'a [u8],
    n: usize,
) -> Result<Pair<'a>, SideFault>
    ensures answer { refusal_in side_refusal result ≡ tables_refusal m source.now n target.now }
    ensures source { IfOk result (λ pair. (pair.source.table.order ≡ m) × (pair.source.table.cells.now ≡ source.now)) }
    ensures target { IfOk result (λ pair. (pair.target.table.order ≡ n) × (pair.target.table.cells.now ≡ target.now)) }
{
    let first = accept_side(Side::Source, source, m)?;
    let second = accept_side(Side::Target, target, n)?;
    Ok(Pair {
        source: first,
        target: second,
    })
}

// Asks questions 1 to 4 of the source, then of the target. Returns the first that fails.
pub fn check_pair(source: &[u8], m: usize, target: &[u8], n: usize) -> Result<(), SideFault>
    ensures answer { refusal_in side_refusal result ≡ tables_refusal m source.now n target.now }
{
    accept_pair(source, m, target, n)?;
    Ok(())
}
