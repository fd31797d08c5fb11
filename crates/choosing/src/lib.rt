// Which element is placed next among rows: one with a small row and many products that differ from its square.

#![tactic(auto)]

ghost use Rattle.std.specs.Prelude.{◌≡◌, cond, ◌≤◌, eqb};
ghost use Rattle.semigroups.specs.Tables.{Element};
ghost use Rattle.products.specs.Tables.{times_of};
ghost use Rattle.choosing.specs.InnerNext.{weight, Costs, rank, better, Open};

use products::Table;
use rows::WORDS;

pub mod old;

// Returns how many products of c, on either side, differ from its square. Placing an element with many of them settles much of the rest.
fn weight(source: &Table<'_>, c: usize) -> usize
    requires { Element source.now.order c }
    ensures answer { result ≡ weight source.now.order (times_of source.now) c }
    ensures most { result ≤ 240 }
{
    let square = source.times(c, c);
    let mut k: usize = 0;
    for b in 1..source.order + 1 {
        k += differs(source.times(c, b), square);
        k += differs(source.times(b, c), square);
    }
    k
}

// Returns 1 if the two are different, else 0.
fn differs(a: usize, b: usize) -> usize
    ensures answer { (result ≡ cond (eqb a b) 0 1) × (result ≤ 1) }
{
    (a != b) as usize
}

// Returns for each element its cost, which is the lower the larger its weight is; zeros follow.
pub fn costs(source: &Table<'_>) -> [u16; 120]
    ensures costs { Costs source.now.order (times_of source.now) result }
{
    let mut found = [0u16; 120];
    for c in 1..source.order + 1 {
        found[c - 1] = (30000 / (weight(source, c) + 1)) as u16;
    }
    found
}

// Returns the number of 16 bits as a `usize`.
fn long(w: u16) -> usize
    ensures answer { (result ≡ w) × (result ≤ 65535) }
{
    w as usize
}

// Returns the rank of c: its row's size times its cost, and 15,000 more if the row has several elements. So a row of one element comes before those of several,
// unless every product of its element is the square of that element: then it settles next to nothing, and its rank is 30,000.
fn rank<'a>(rows: &'a [u64; WORDS], costs: &'a [u16; 120], c: usize) -> usize
    requires { Element 120 c }
    ensures answer { result ≡ rank rows.now costs.now c }
{
    let k = rows::row_of(rows, c).size();
    let r = k * long(costs[c - 1]);
    if k < 2 {
        return r;
    }
    r + 15000
}

// An element and its rank. Element 0 stands for none; its rank is not looked at.
#[derive(Clone, Copy)]
struct Ranked {
    element: usize,
    rank: usize,
}

// Returns c with its rank if c is not used and either no element is given or c ranks before it; else what is given.
fn better<'a>(
    used: &'a [u8; 120],
    rows: &'a [u64; WORDS],
    costs: &'a [u16; 120],
    c: usize,
    best: Ranked,
) -> Ranked
    requires { Element 120 c }
    ensures answer { result ≡ better used.now rows.now costs.now c best }
{
    if propagation::image_of(used, c) != 0 {
        return best;
    }
    let r = rank(rows, costs, c);
    if best.element == 0 {
        return Ranked {
            element: c,
            rank: r,
        };
    }
    if r < best.rank {
        return Ranked {
            element: c,
            rank: r,
        };
    }
    best
}

// Returns the first unused element of the least rank, or 0 if each of m elements is used.
pub fn next_open<'a>(
    used: &'a [u8; 120],
    rows: &'a [u64; WORDS],
    costs: &'a [u16; 120],
    m: usize,
) -> usize
    requires { m ≤ 120 }
    ensures answer { Open m used.now (rank rows.now costs.now) result }
{
    let mut best = Ranked {
        element: 0,
        rank: 0,
    };
    for c in 1..m + 1 {
        best = better(used, rows, costs, c, best);
    }
    best.element
}
