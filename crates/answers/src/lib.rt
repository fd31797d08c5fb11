// The types of the answers about tables, and each refusal as numbers.

#![tactic(auto)]

ghost use Rattle.std.specs.Prelude.{◌≡◌, [], ◌∷◌};
ghost use Rattle.semigroups.specs.InnerQuestions.{no};
ghost use Rattle.answers.specs.Answers.{no_refusal, fault_refusal, side_refusal, side_number, refusal_numbers, numbers_naming};

// Why a table is refused: which of questions 1 to 4 fails; for 3 the first cell that is not 1 to n, counted from 1; for 4 the first failing triple.
#[derive(Clone, Copy)]
pub enum Fault {
    Order,
    Size,
    Cell(usize),
    Triple(usize, usize, usize),
}

// One of the two tables.
#[derive(Clone, Copy)]
pub enum Side {
    Source,
    Target,
}

// A refusal as numbers: the question; the side that it names, 1 for source or 2 for target, or 0; and the values said with it, then zeros.
#[derive(Clone, Copy)]
pub struct Refusal {
    pub number: usize,
    pub side: usize,
    pub first: usize,
    pub second: usize,
    pub third: usize,
}

// A "no" to a question: its number alone; its number and one value; or, for question 4, the triple alone.
#[derive(Clone, Copy)]
pub enum No {
    Bare(usize),
    With(usize, usize),
    Triple(usize, usize, usize),
}

// Why one of two tables is refused: which of them, and its fault.
#[derive(Clone, Copy)]
pub struct SideFault {
    pub side: Side,
    pub fault: Fault,
}

// ---- refusals as numbers

impl Side {
    // Returns the side as a number: 1 for the source, 2 for the target.
    pub fn number(self) -> usize
        ensures answer { result ≡ side_number self }
    {
        match self {
            Side::Source => 1,
            Side::Target => 2,
        }
    }
}

impl Refusal {
    // Returns the refusal by question `number`, which names no side and carries `value`; 0 stands for no value.
    pub fn by(number: usize, value: usize) -> Self
        ensures answer { result ≡ refusal_numbers (no number (value ∷ [])) }
    {
        Refusal {
            number,
            side: 0,
            first: value,
            second: 0,
            third: 0,
        }
    }

    // Returns this refusal with `side` as the side that it names.
    pub fn naming(self, side: Side) -> Self
        ensures answer { result ≡ numbers_naming (side_number side) self }
    {
        Refusal {
            side: side.number(),
            ..self
        }
    }
}

impl No {
    // Returns the refusal by this "no": its number and values; it names no side.
    pub fn refusal(self) -> Refusal
        ensures answer { result ≡ refusal_numbers (no_refusal self) }
    {
        match self {
            No::Bare(number) => Refusal::by(number, 0),
            No::With(number, value) => Refusal::by(number, value),
            No::Triple(i, j, k) => Refusal {
                number: 4,
                side: 0,
                first: i,
                second: j,
                third: k,
            },
        }
    }
}

// The "no" that a fault stands for.
impl From<Fault> for No {
    ghost from_gives = { λ fault r. no_refusal r ≡ fault_refusal fault };

    fn from(fault: Fault) -> Self {
        match fault {
            Fault::Order => No::Bare(1),
            Fault::Size => No::Bare(2),
            Fault::Cell(cell) => No::With(3, cell),
            Fault::Triple(i, j, k) => No::Triple(i, j, k),
        }
    }
}

impl Fault {
    // Returns the refusal by this fault: its number and values; it names no side.
    pub fn refusal(self) -> Refusal
        ensures answer { result ≡ refusal_numbers (fault_refusal self) }
    {
        No::from(self).refusal()
    }
}

impl SideFault {
    // Returns the refusal by this fault, which names its side.
    pub fn refusal(self) -> Refusal
        ensures answer { result ≡ refusal_numbers (side_refusal self) }
    {
        self.fault.refusal().naming(self.side)
    }
}
