// A table whose cells fill it, and its products.
ghost use Rattle.std.specs.Prelude.{◌≡◌};
ghost use Rattle.semigroups.specs.Lists.{at};
ghost use Rattle.semigroups.specs.Tables.{Element, Filled, associates};
ghost use Rattle.semigroups.specs.InnerTables.{IsList};

// The table of this order with these cells, row after row.
#[derive(Clone, Copy)]
pub struct Table<'a> {
    pub cells: &'a [u8],
    pub order: usize,
    pub ghost filled: { Filled order cells.now },
}

impl Table<'_> {
    ghost use Rattle.plain.specs.InnerTables.{product_of};

    // Returns the product i·j: rows and columns count from 1.
    #[tactic(auto, unfolding(semigroups::specs::Tables::product))]
    pub(crate) fn product(&self, i: usize, j: usize) -> usize
        requires row { Element self.now.order i }
        requires column { Element self.now.order j }
        ensures answer { result ≡ product_of self.now i j }
        ensures element { Element self.now.order result }
    {
        self.cells[(i - 1) * self.order + (j - 1)] as usize
    }

    // Returns whether a triple of elements associates.
    #[tactic(auto, unfolding(semigroups::specs::Tables::associates, semigroups::specs::Lists::at))]
    pub(crate) fn associates(&self, triple: &[u8; 3]) -> bool
        requires elements { IsList 3 self.now.order triple.now }
        ensures answer { result ≡ associates (product_of self.now) (at triple.now 1) (at triple.now 2) (at triple.now 3) }
    {
        let i = triple[0] as usize;
        let j = triple[1] as usize;
        let k = triple[2] as usize;
        let ij = self.product(i, j);
        let jk = self.product(j, k);
        self.product(ij, k) == self.product(i, jk)
    }
}
