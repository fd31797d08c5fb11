// The same over orders and cells in arguments of their own.

ghost use Rattle.std.specs.Prelude.{◌≡◌, true, List, ℕ, ◌+◌};
ghost use Rattle.semigroups.specs.Lists.{at};
ghost use Rattle.semigroups.specs.Tables.{product, Element, Filled};
ghost use Rattle.semigroups.specs.InnerMaps.{Embedding, Among};
ghost use Rattle.rows.specs.InnerRows.{row_of, has, single_row, Shrinks};
ghost use Rattle.propagation.specs.InnerRows.{Images, Keeps, Multiplied, MultipliedBefore, Narrows, KeptOrEmptied, NarrowedInTurn};
ghost use Rattle.propagation.specs.InnerLone.{KeepsOrFails, KeptOrEmptiedFrom, KeptOrEmptiedByAll};

use products::Table;
use rows::WORDS;

// Narrows the first m rows by placing x for l.
pub fn narrow(
    source: &[u8],
    m: usize,
    target: &[u8],
    n: usize,
    rows: &mut [u64; WORDS],
    l: usize,
    x: usize,
) -> bool
    requires filled { Filled m source.now × Filled n target.now }
    requires element { Element m l × Element n x }
    ensures keeps { (f : List ℕ) → Embedding m (product m source.now) n (product n target.now) f → at f l ≡ x → Among m (has rows.old) f → (result ≡ true) × Among m (has rows.new) f }
    ensures shrinks { Shrinks rows.old rows.new }
    ensures narrows { result ≡ true → Narrows m (product m source.now) n (product n target.now) l x (has rows.old) (has rows.new) }
    ensures told { KeptOrEmptied m (product m source.now) n (product n target.now) l x result (has rows.new) }
    ensures rows { NarrowedInTurn m (product m source.now) n (product n target.now) l x rows.old result rows.new }
{
    let from = Table {
        cells: source,
        order: m,
    };
    let to = Table {
        cells: target,
        order: n,
    };
    crate::narrow(&from, &to, rows, l, x)
}

// Keeps in the row of each product of the newest element with a placed one at most the product of their images.
pub fn force_products(
    source: &[u8],
    m: usize,
    target: &[u8],
    n: usize,
    image: &[u8; 120],
    rows: &mut [u64; WORDS],
    len: usize,
)
    requires filled { Filled m source.now × Filled n target.now }
    requires images { Images n image.now len × Element m len }
    ensures keeps { Keeps m (product m source.now) n (product n target.now) image.now len (has rows.old) (has rows.new) }
    ensures forced { Multiplied (product m source.now) (product n target.now) image.now len len rows.new }
    ensures shrinks { Shrinks rows.old rows.new }
    ensures rows { MultipliedBefore (product m source.now) (product n target.now) image.now len rows.old (len + 1) rows.new }
{
    let from = Table {
        cells: source,
        order: m,
    };
    let to = Table {
        cells: target,
        order: n,
    };
    crate::force_products(&from, &to, image, rows, len);
}

// Narrows the rows by row l if it holds one element alone.
pub fn propagate_from(
    source: &[u8],
    m: usize,
    target: &[u8],
    n: usize,
    rows: &mut [u64; WORDS],
    l: usize,
) -> bool
    requires filled { Filled m source.now × Filled n target.now }
    requires element { Element m l }
    ensures keeps { KeepsOrFails m (product m source.now) n (product n target.now) (has rows.old) result (has rows.new) }
    ensures shrinks { Shrinks rows.old rows.new }
    ensures narrows { result ≡ true → (x : ℕ) → Element n x → row_of rows.old l ≡ single_row x → Narrows m (product m source.now) n (product n target.now) l x (has rows.old) (has rows.new) }
    ensures told { KeptOrEmptiedFrom m (product m source.now) n (product n target.now) l rows.old result rows.new }
{
    let from = Table {
        cells: source,
        order: m,
    };
    let to = Table {
        cells: target,
        order: n,
    };
    crate::propagate_from(&from, &to, rows, l)
}

// Narrows the rows by each row that holds one element alone.
pub fn propagate(source: &[u8], m: usize, target: &[u8], n: usize, rows: &mut [u64; WORDS]) -> bool
    requires { Filled m source.now × Filled n target.now }
    ensures keeps { KeepsOrFails m (product m source.now) n (product n target.now) (has rows.old) result (has rows.new) }
    ensures shrinks { Shrinks rows.old rows.new }
    ensures narrows { result ≡ true → (c x : ℕ) → Element m c → Element n x → row_of rows.new c ≡ single_row x → Narrows m (product m source.now) n (product n target.now) c x (has rows.old) (has rows.new) }
    ensures told { KeptOrEmptiedByAll m (product m source.now) n (product n target.now) rows.old result rows.new }
{
    let from = Table {
        cells: source,
        order: m,
    };
    let to = Table {
        cells: target,
        order: n,
    };
    crate::propagate(&from, &to, rows)
}
