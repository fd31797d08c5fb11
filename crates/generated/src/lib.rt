// What a list of elements generates: the smallest set that contains the list and every product of its own members. `check` is the shorter check of a table
// whose generators are known. It takes cells, an order and a list of any content; the first "no" is the answer.

#![tactic(auto)]

ghost use Rattle.std.specs.Prelude.{◌≡◌, ◌<◌, length};
ghost use Rattle.std.proofs.Math.Option.{map};
ghost use Rattle.semigroups.specs.Tables.{largest_order};
ghost use Rattle.semigroups.specs.InnerQuestions.{no};
ghost use Rattle.semigroups.specs.InnerGenerated.{Inside};
ghost use Rattle.semigroups.specs.Generated.{generated};
ghost use Rattle.semigroups.specs.Light.{bad_triple_through, generators_refusal};
ghost use Rattle.semigroups.specs.Results.{refusal_in};
ghost use Rattle.answers.specs.Answers.{fault_refusal, refusal_numbers};
ghost use Rattle.products.specs.Tables.{times_of};
ghost use Rattle.light.specs.InnerFound.{indicator, adding_all};
ghost use Rattle.generated.specs.InnerFound.{products_up_to};
ghost use Rattle.generated.specs.Answers.{generators_fault_refusal};

use light::FoundElements;
use tables::limits::PLACES;
use tables::{Fault, Refusal, Table};

// ---- what a list generates

// Adds to the elements found the products of the element at `place` with itself and with each one before it, from both sides.
fn multiply(table: &Table<'_>, found: &mut FoundElements, place: usize)
    requires inside { Inside table.now.order found.old }
    requires place { place < length found.old }
    ensures found { found.new ≡ adding_all found.old (products_up_to (times_of table.now) found.old place) }
{
    let x = found.at(place);
    for i in 0..place + 1 {
        let y = found.at(i);
        found.add(table.times(x, y));
        found.add(table.times(y, x));
    }
}

// The elements that a list generates: place x is 1 where x is one of them, else 0; and how many there are.
#[derive(Clone, Copy)]
pub struct Generated {
    pub marks: [u8; PLACES],
    pub count: usize,
}

// Returns what the list generates. Each element found is multiplied with itself and with all that were found before it: n × (n + 1) products at most.
pub fn generate(table: &Table<'_>, list: &[u8]) -> Generated
    requires inside { Inside table.now.order list.now }
    ensures marks { result.marks ≡ indicator (generated table.now.order (times_of table.now) list.now) }
    ensures count { result.count ≡ length (generated table.now.order (times_of table.now) list.now) }
{
    let mut found = FoundElements::new();
    for x in list {
        found.add(*x as usize);
    }
    let mut place: usize = 0;
    // A while: what is found grows as the loop runs.
    while place < found.len() {
        multiply(table, &mut found, place);
        place += 1;
    }
    Generated {
        marks: found.marks(),
        count: found.len(),
    }
}

// ---- the shorter check

// Why a table with a list of generators is refused: the fault of the table, or question 50 or 51.
#[derive(Clone, Copy)]
pub enum GeneratorsFault {
    Table(Fault),
    Entry,
    Elements,
}

// A fault of the table.
impl From<Fault> for GeneratorsFault {
    ghost from_gives = { λ fault r. generators_fault_refusal r ≡ fault_refusal fault };

    fn from(fault: Fault) -> Self {
        GeneratorsFault::Table(fault)
    }
}

impl GeneratorsFault {
    // Returns the refusal by this fault: its number and values; it names no side.
    pub fn refusal(self) -> Refusal
        ensures answer { result ≡ refusal_numbers (generators_fault_refusal self) }
    {
        match self {
            GeneratorsFault::Table(fault) => fault.refusal(),
            GeneratorsFault::Entry => Refusal::by(50, 0),
            GeneratorsFault::Elements => Refusal::by(51, 0),
        }
    }
}

// Returns which elements the list holds: place x is 1 where x stands in it, else 0.
fn marked(list: &[u8]) -> [u8; PLACES]
    requires { Inside largest_order list.now }
    ensures answer { result ≡ indicator list.now }
{
    let mut marks = [0u8; PLACES];
    for x in list {
        marks[*x as usize] = 1;
    }
    marks
}

// Asks question 4 only of the triples with their middle on the list; for k different entries these are k × n × n triples. Returns the first that fails.
fn associative_through(table: &Table<'_>, list: &[u8]) -> Result<(), Fault>
    requires inside { Inside table.now.order list.now }
    ensures answer { refusal_in fault_refusal result ≡ map (λ l. no 4 l) (bad_triple_through table.now.order (times_of table.now) list.now) }
{
    let n = table.order;
    let middles = marked(list);
    let mut answer = Ok(());
    'triples: for i in 1..n + 1 {
        for j in 1..n + 1 {
            let listed = middles[j] != 0;
            if listed {
                if let Some(k) = table.failing_third(i, j) {
                    answer = Err(Fault::Triple(i, j, k));
                    break 'triples;
                }
            }
        }
    }
    answer
}

// Asks questions 1 to 3; then 50, is every entry of the list 1 to n? then 51, does the list generate all n elements? then 4, of the triples with their middle
// on the list. Returns the first that fails.
pub fn check(cells: &[u8], n: usize, generators: &[u8]) -> Result<(), GeneratorsFault>
    ensures answer { refusal_in generators_fault_refusal result ≡ generators_refusal n cells.now generators.now }
{
    let table = tables::check_cells(cells, n)?;
    if tables::outside(generators, n).is_some() {
        return Err(GeneratorsFault::Entry);
    }
    if generate(&table, generators).count != n {
        return Err(GeneratorsFault::Elements);
    }
    associative_through(&table, generators)?;
    Ok(())
}
