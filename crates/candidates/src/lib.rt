// Candidates and their marks in the scratch buffer. Where a mark stands, and how many bytes the marks take, is known here alone.
// What is compared of an element is packed into one number, its key, once for each element; a pair of elements then takes one comparison.

#![tactic(auto)]

ghost use Rattle.std.specs.Prelude.{◌≡◌, Bool, ℕ, ◌+◌, ◌*◌, ◌≤◌, ◌<◌, length, get_or};
ghost use Rattle.semigroups.specs.Tables.{largest_order, cell_place, product, Element, Filled};
ghost use Rattle.semigroups.specs.Invariants.{index_period, profile};
ghost use Rattle.semigroups.specs.Maps.{embeddings, isomorphisms};
ghost use Rattle.semigroups.specs.Candidates.{candidate};
ghost use Rattle.semigroups.specs.Scratch.{packed_byte, scratch_size, marked};
ghost use Rattle.semigroups.specs.InnerScratch.{pair_marks};
ghost use Rattle.semigroups.specs.InnerCalls.{scratch_after};
ghost use Rattle.products.specs.InnerPerElement.{per_element};
ghost use Rattle.candidates.specs.InnerPairs.{PairAt, MayAsk, Decides};
ghost use Rattle.candidates.specs.InnerKeys.{index_period_key, profile_key, appended, Room, same_key};

use tables::limits::ORDER;

// ---- marks

// Returns how many bytes the marks of m source and n target elements take.
#[tactic(auto, unfolding(semigroups::specs::Scratch::scratch_size))]
pub fn scratch_size(m: usize, n: usize) -> usize
    requires { (m ≤ largest_order) × (n ≤ largest_order) }
    ensures answer { result ≡ scratch_size m n }
{
    (m * n + 7) / 8
}

// Returns the number, counted from 0, of the pair of source element i and target element j, where there are n target elements.
fn pair_number(n: usize, i: usize, j: usize) -> usize
    requires { Element largest_order i × Element n j × (n ≤ largest_order) }
    ensures answer { result ≡ cell_place n i j }
{
    (i - 1) * n + (j - 1)
}

// Returns whether target element j is marked as a candidate for source element i, where there are n target elements.
pub fn marked(scratch: &[u8], n: usize, i: usize, j: usize) -> bool
    requires element { Element largest_order i }
    requires n_le_largest_order { (n ≤ largest_order) × Element n j }
    requires n_in_bounds { scratch_size i n ≤ length scratch.now }
    ensures answer { result ≡ marked n scratch.now i j }
{
    let pair = pair_number(n, i, j);
    (scratch[pair / 8] >> (pair % 8)) % 2 == 1
}

// ---- keys

// Returns every key with one more part appended: a number that takes one of `values` values.
fn append(keys: &[u64; ORDER], n: usize, values: u64, numbers: &[u16; ORDER]) -> [u64; ORDER]
    requires { (n ≤ largest_order) × Room n values keys.now numbers.now }
    ensures answer { result ≡ per_element n (appended values keys.now numbers.now) }
{
    let mut longer = [0u64; ORDER];
    for place in 0..n {
        longer[place] = keys[place] * values + numbers[place] as u64;
    }
    longer
}

// Returns the index-period key of every element; that of element a stands at place a - 1, and zeros follow.
fn index_period_keys(cells: &[u8], n: usize) -> [u64; ORDER]
    requires { Filled n cells.now }
    ensures answer { result ≡ per_element n (λ a. index_period_key (index_period n (product n cells.now) a)) }
{
    let powers = invariants::old::all_index_period_keys(cells, n);
    let none = [0u64; ORDER];
    let indices = append(&none, n, 256, &powers.index);
    append(&indices, n, 256, &powers.period)
}

// Returns the profile key of every element; that of element a stands at place a - 1, and zeros follow.
pub fn profile_keys(cells: &[u8], n: usize) -> [u64; ORDER]
    requires { Filled n cells.now }
    ensures answer { result ≡ per_element n (λ a. profile_key (profile n (product n cells.now) a)) }
{
    let counts = counts::old::all_counts(cells, n);
    let powers = index_period_keys(cells, n);
    let frequencies = append(&powers, n, 65536, &counts.frequency);
    let diagonals = append(&frequencies, n, 256, &counts.diagonal);
    let rows = append(&diagonals, n, 256, &counts.row);
    let columns = append(&rows, n, 256, &counts.column);
    append(&columns, n, 256, &counts.commuting)
}

// ---- filling

// A source element i and a target element j. After the last pair, i is above the source's order.
#[derive(Clone, Copy)]
struct Pair {
    i: usize,
    j: usize,
}

impl Pair {
    // Returns the pair that follows: the same source element with the next target element, or the next source element with the first.
    fn following(self, n: usize) -> Self
        requires { (1 ≤ self.i) × (self.i ≤ largest_order * largest_order) × Element n self.j × (n ≤ largest_order) }
        ensures next { PairAt n (cell_place n self.i self.j + 1) result.i result.j }
    {
        if self.j < n {
            Pair {
                i: self.i,
                j: self.j + 1,
            }
        } else {
            Pair {
                i: self.i + 1,
                j: 1,
            }
        }
    }
}

// Returns the mark of a pair: 1 where it passes, else 0; after the last pair it is 0.
fn mark<F: Fn(usize, usize) -> bool>(m: usize, n: usize, passes: &F, pair: Pair) -> usize
    requires pair { (1 ≤ pair.i) × Element n pair.j × (m ≤ largest_order) × (n ≤ largest_order) }
    requires asked { MayAsk m n (F.pre passes.now) }
    ensures small { result ≤ 1 }
    ensures answer { (p : ℕ → ℕ → Bool) → Decides m n (F.post passes.now) p → result ≡ get_or (pair_marks m n p) (cell_place n pair.i pair.j) 0 }
{
    if pair.i <= m {
        passes(pair.i, pair.j) as usize
    } else {
        0
    }
}

// Returns one byte of the marks: eight pairs, that of the r-th at bit r.
fn marks_byte<F: Fn(usize, usize) -> bool>(m: usize, n: usize, passes: &F, place: usize) -> u8
    requires place { (m ≤ largest_order) × (n ≤ largest_order) × (place < scratch_size m n) }
    requires asked { MayAsk m n (F.pre passes.now) }
    ensures answer { (p : ℕ → ℕ → Bool) → Decides m n (F.post passes.now) p → result ≡ packed_byte (pair_marks m n p) place }
{
    let first = place * 8;
    let mut pair = Pair {
        i: first / n + 1,
        j: first % n + 1,
    };
    let mut byte: usize = 0;
    for r in 0..8usize {
        byte += mark(m, n, passes, pair) << r;
        pair = pair.following(n);
    }
    byte as u8
}

// Writes the marks of the pairs that pass to the start of `marks`; later bytes are untouched.
pub fn write_marks<F: Fn(usize, usize) -> bool>(m: usize, n: usize, passes: F, marks: &mut [u8])
    requires m_le_largest_order { (m ≤ largest_order) × (n ≤ largest_order) }
    requires n_in_bounds { scratch_size m n ≤ length marks.old }
    requires asked { MayAsk m n (F.pre passes) }
    ensures marks { (p : ℕ → ℕ → Bool) → Decides m n (F.post passes) p → marks.new ≡ scratch_after m n p marks.old }
{
    for place in 0..scratch_size(m, n) {
        marks[place] = marks_byte(m, n, &passes, place);
    }
}

// Writes the marks of the pairs of elements with equal keys to the start of `scratch`; later bytes are untouched.
pub fn fill_equal(
    source: &[u64; ORDER],
    m: usize,
    target: &[u64; ORDER],
    n: usize,
    scratch: &mut [u8],
)
    requires m_le_largest_order { (m ≤ largest_order) × (n ≤ largest_order) }
    requires n_in_bounds { scratch_size m n ≤ length scratch.old }
    ensures scratch { scratch.new ≡ scratch_after m n (same_key source.now target.now) scratch.old }
{
    write_marks(m, n, |i, j| source[i - 1] == target[j - 1], scratch);
}

// Writes the marks of the candidates for embeddings, the pairs of elements with equal index-periods, to the start of `scratch`; later bytes are untouched.
pub fn fill_embeddings(source: &[u8], m: usize, target: &[u8], n: usize, scratch: &mut [u8])
    requires filled { Filled m source.now × Filled n target.now }
    requires n_in_bounds { scratch_size m n ≤ length scratch.old }
    ensures scratch { scratch.new ≡ scratch_after m n (candidate embeddings m (product m source.now) n (product n target.now)) scratch.old }
{
    let source_keys = index_period_keys(source, m);
    let target_keys = index_period_keys(target, n);
    fill_equal(&source_keys, m, &target_keys, n, scratch);
}

// Writes the marks of the candidates for isomorphisms, the pairs of elements with equal profiles, to the start of `scratch`; later bytes are untouched.
pub fn fill_isomorphisms(source: &[u8], m: usize, target: &[u8], n: usize, scratch: &mut [u8])
    requires filled { Filled m source.now × Filled n target.now }
    requires n_in_bounds { scratch_size m n ≤ length scratch.old }
    ensures scratch { scratch.new ≡ scratch_after m n (candidate isomorphisms m (product m source.now) n (product n target.now)) scratch.old }
{
    let source_keys = profile_keys(source, m);
    let target_keys = profile_keys(target, n);
    fill_equal(&source_keys, m, &target_keys, n, scratch);
}
