// Tables of finite semigroups as values: the products of a table; how often each element occurs; the table with rows and columns exchanged.

#![tactic(auto)]

ghost use Rattle.std.specs.Prelude.{◌≡◌, not, ◌*◌, ◌≤◌, length};
ghost use Rattle.semigroups.specs.Lists.{elements, find};
ghost use Rattle.semigroups.specs.Tables.{largest_order, Element, Filled, product, associates};
ghost use Rattle.semigroups.specs.InnerTables.{turned_cells};
ghost use Rattle.semigroups.specs.Invariants.{frequency};
ghost use Rattle.semigroups.specs.Calls.{overwritten};
ghost use Rattle.semigroups.specs.Results.{optional};
ghost use Rattle.products.specs.InnerCounting.{occurrences, InRange};
ghost use Rattle.products.specs.InnerPerElement.{per_element};

use crate::limits::ORDER;

pub mod limits;
pub mod old;

// The table of this order with these cells, row by row. The cells fill it, so that a product of elements is an element.
#[derive(Clone, Copy)]
pub struct Table<'a> {
    pub cells: &'a [u8],
    pub order: usize,
    pub ghost filled: { Filled order cells.now },
}

impl Table<'_> {
    ghost use Rattle.products.specs.Tables.{times_of};

    // ---- products

    // Returns the product i·j.
    #[tactic(auto, unfolding(semigroups::specs::Tables::product))]
    pub fn times(&self, i: usize, j: usize) -> usize
        requires left { Element self.now.order i }
        requires right { Element self.now.order j }
        ensures answer { result ≡ times_of self.now i j }
        ensures element { Element self.now.order result }
    {
        self.cells[(i - 1) * self.order + (j - 1)] as usize
    }

    // Returns whether (i·j)·k = i·(j·k) does not hold, where ij is i·j.
    #[tactic(auto, unfolding(semigroups::specs::Tables::associates))]
    fn fails(&self, i: usize, j: usize, ij: usize, k: usize) -> bool
        requires first { Element self.now.order i }
        requires second { Element self.now.order j }
        requires third { Element self.now.order k }
        requires product { ij ≡ times_of self.now i j × Element self.now.order ij }
        ensures answer { result ≡ not (associates (times_of self.now) i j k) }
    {
        let jk = self.times(j, k);
        self.times(ij, k) != self.times(i, jk)
    }

    // Returns the first k for which (i·j)·k = i·(j·k) does not hold, or none. Each turn of the loop looks at two, which is quicker than one.
    pub fn failing_third(&self, i: usize, j: usize) -> Option<usize>
        requires left { Element self.now.order i }
        requires right { Element self.now.order j }
        ensures answer { optional result ≡ find (λ k. not (associates (times_of self.now) i j k)) (elements self.now.order) }
    {
        let n = self.order;
        let ij = self.times(i, j);
        for half in 0..n / 2 {
            let k = 2 * half + 1;
            if self.fails(i, j, ij, k) {
                return Some(k);
            }
            if self.fails(i, j, ij, k + 1) {
                return Some(k + 1);
            }
        }
        if n % 2 == 1 && self.fails(i, j, ij, n) {
            return Some(n);
        }
        None
    }

    // ---- how often elements occur

    // Returns how often each element stands among k cells: the first, and then each that is `step` cells after the one before. The count of element a stands
    // at place a - 1; zeros follow.
    pub fn tally(&self, k: usize, step: usize) -> [u16; ORDER]
        requires inside { InRange k step self.now.cells.now }
        requires few { k ≤ largest_order * largest_order }
        ensures answer { result ≡ per_element self.now.order (λ a. occurrences a step k self.now.cells.now) }
    {
        let mut found = [0u16; ORDER];
        for i in 0..k {
            let x = self.cells[i * step] as usize;
            found[x - 1] += 1;
        }
        found
    }

    // Returns how often each element stands in the table. The count of element a stands at place a - 1; zeros follow.
    pub fn frequencies(&self) -> [u16; ORDER]
        ensures answer { result ≡ per_element self.now.order (frequency self.now.order (times_of self.now)) }
    {
        self.tally(self.cells.len(), 1)
    }

    // ---- rows and columns exchanged

    // Writes the table with its rows and columns exchanged to the start of `turned`; later bytes are untouched.
    pub fn turn(&self, turned: &mut [u8])
        requires { self.now.order * self.now.order ≤ length turned.old }
        ensures turned { turned.new ≡ overwritten (turned_cells self.now.order self.now.cells.now) turned.old }
    {
        let n = self.order;
        for i in 1..n + 1 {
            for j in 1..n + 1 {
                turned[(i - 1) * n + (j - 1)] = self.times(j, i) as u8;
            }
        }
    }
}
