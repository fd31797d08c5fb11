// A second search, written separately: it enumerates all lists and shares no function with the library.

#![tactic(auto)]

pub mod table;

ghost use Rattle.std.specs.Prelude.{◌≡◌, ◌&&◌, ◌++◌, ◌^◌, ◌≤◌, ◌<◌, length, drop, replicate, MatchOption};
ghost use Rattle.std.proofs.Math.Option;
ghost use Rattle.semigroups.specs.Lists.{at, earlier};
ghost use Rattle.semigroups.specs.Results.{optional};
ghost use Rattle.semigroups.specs.Tables.{Element, bad_cell, bad_triple};
ghost use Rattle.semigroups.specs.InnerTables.{IsList};
ghost use Rattle.semigroups.specs.InnerQuestions.{no};
ghost use Rattle.semigroups.specs.Questions.{table_refusal};
ghost use Rattle.semigroups.specs.Maps.{is_embedding, is_map, maps, next, earliest};
ghost use Rattle.plain.specs.InnerEnumeration.{numbered, keeps};
ghost use Rattle.plain.specs.InnerSaid.{said_of};
ghost use Rattle.plain.specs.InnerTables.{product_of, kind_of};

use crate::table::Table;

// ---- all lists

// Three functions below ask alike of n and k, each for a length of its own: a struct of the two would say no less.

// Returns how many lists of m entries from 1 to n there are.
#[tactic(auto, using(crate::proofs::Enumeration::power_small))]
pub fn number_of_lists(m: usize, n: usize) -> usize
    requires { (m ≤ 9) × (n ≤ 120) }
    ensures answer { result ≡ n ^ m }
{
    n.pow(m as u32)
}

// Fills `list` with list number k, counted from 0, of all lists of its length with entries from 1 to n.
fn write_list(list: &mut [u8], n: usize, k: usize)
    requires element { Element 120 n }
    requires k_bound { k < n ^ length list.old }
    ensures list { list.new ≡ numbered (length list.old) n k }
{
    let mut rest = k;
    for i in (0..list.len()).rev() {
        list[i] = (rest % n + 1) as u8;
        rest /= n;
    }
}

// Returns list number k of all lists of M entries from 1 to n.
fn list_of<const M: usize>(n: usize, k: usize) -> [u8; M]
    requires element { Element 120 n }
    requires k_bound { k < n ^ M }
    ensures list { result ≡ numbered M n k }
    ensures elements { IsList M n result }
{
    let mut list = [0u8; M];
    write_list(&mut list, n, k);
    list
}

// Returns list number k of all lists of m entries from 1 to n, at the start of an array; the bytes after it are 0.
pub fn list_number(m: usize, n: usize, k: usize) -> [u8; 9]
    requires small { m ≤ 9 }
    requires element { Element 120 n }
    requires k_bound { k < n ^ m }
    ensures list { result ≡ numbered m n k ++ drop m (replicate 9 0) }
{
    let mut list = [0u8; 9];
    write_list(&mut list[..m], n, k);
    list
}

// Returns whether list a is earlier than list b, which has the same length.
fn earlier(a: &[u8], b: &[u8]) -> bool
    requires { length a.now ≡ length b.now }
    ensures answer { result ≡ earlier a.now b.now }
{
    a < b
}

// ---- tables

// The "no" to a question about a table: the number of the question, and the cell or the triple that fails; 0 where the "no" carries less.
#[derive(Clone, Copy, PartialEq, Eq)]
pub struct Said {
    pub number: usize,
    pub first: usize,
    pub second: usize,
    pub third: usize,
}

// Returns the "no" with this number and at most one value.
pub fn failed(number: usize, value: usize) -> Said
    ensures answer { result ≡ record { number = number; first = value; second = 0; third = 0 } }
{
    Said {
        number,
        first: value,
        second: 0,
        third: 0,
    }
}

// Returns the first cell that is not 1 to n, counted from 1, if there is one.
fn wrong_cell(cells: &[u8], n: usize) -> Option<usize>
    ensures answer { optional result ≡ bad_cell n cells.now }
{
    (1..cells.len() + 1).find(|k| {
        let cell = cells[*k - 1] as usize;
        cell < 1 || n < cell
    })
}

// Asks question 4 of a table: goes through the triples in list order, and returns the "no" with the first that fails, if one does.
fn judge_triples(table: &Table) -> Result<(), Said>
    ensures answer { result ≡ said_of (Option.map (λ l. no 4 l) (bad_triple table.now.order (product_of table.now))) }
{
    for k in 0..number_of_lists(3, table.order) {
        let triple = list_of::<3>(table.order, k);
        if !table.associates(&triple) {
            return Err(Said {
                number: 4,
                first: triple[0] as usize,
                second: triple[1] as usize,
                third: triple[2] as usize,
            });
        }
    }
    Ok(())
}

// Asks the four questions about a table, and returns the "no" of the first that fails, if one does.
pub fn judge(cells: &[u8], n: usize) -> Result<(), Said>
    ensures answer { result ≡ said_of (table_refusal n cells.now) }
{
    if n < 1 || 120 < n {
        return Err(failed(1, 0));
    }
    if cells.len() != n * n {
        return Err(failed(2, 0));
    }
    if let Some(place) = wrong_cell(cells, n) {
        return Err(failed(3, place));
    }
    judge_triples(&Table { cells, order: n })
}

// ---- maps

// The kinds of maps that this search looks for.
#[derive(Clone, Copy)]
pub enum Kind {
    Embeddings,
    Isomorphisms,
}

// A list of elements of the target, one for each element of the source.
#[derive(Clone, Copy)]
struct Map<'a> {
    source: Table<'a>,
    target: Table<'a>,
    images: &'a [u8],
    ghost list: { IsList source.order target.order images.now },
}

impl Map<'_> {
    // Returns the image of element i.
    fn image(&self, i: usize) -> usize
        requires { Element self.now.source.order i }
        ensures answer { result ≡ at self.now.images.now i }
        ensures element { Element self.now.target.order result }
    {
        self.images[i - 1] as usize
    }

    // Returns whether the image of the product of the two elements is the product of their images and, if the two differ, their images differ too.
    #[tactic(auto, unfolding(crate::specs::InnerEnumeration::keeps, semigroups::specs::Lists::at))]
    fn keeps(&self, pair: &[u8; 2]) -> bool
        requires pair { IsList 2 self.now.source.order pair.now }
        ensures answer { result ≡ keeps (product_of self.now.source) (product_of self.now.target) self.now.images.now pair.now }
    {
        let i = pair[0] as usize;
        let j = pair[1] as usize;
        let x = self.image(i);
        let y = self.image(j);
        let ij = self.source.product(i, j);
        let kept = self.image(ij) == self.target.product(x, y);
        ((i == j) | (x != y)) & kept
    }

    // Returns whether the list is an embedding.
    fn is_embedding(&self) -> bool
        ensures answer { result ≡ is_embedding self.now.source.order (product_of self.now.source) self.now.target.order (product_of self.now.target) self.now.images.now }
    {
        let m = self.source.order;
        (0..number_of_lists(2, m)).all(|k| self.keeps(&list_of::<2>(m, k)))
    }

    // Returns whether the list is a map of the kind.
    #[tactic(auto, unfolding(semigroups::specs::Maps::is_isomorphism))]
    fn is_map(&self, kind: Kind) -> bool
        ensures answer { result ≡ is_map (kind_of kind) self.now.source.order (product_of self.now.source) self.now.target.order (product_of self.now.target) self.now.images.now }
    {
        match kind {
            Kind::Embeddings => self.is_embedding(),
            Kind::Isomorphisms => self.source.order == self.target.order && self.is_embedding(),
        }
    }
}

// What is searched for: a map of the kind from the source to the target that is later than the list `after`.
#[derive(Clone, Copy)]
struct Search<'a> {
    kind: Kind,
    source: Table<'a>,
    target: Table<'a>,
    after: &'a [u8],
    ghost small: { source.order ≤ 9 },
    ghost after_len: { length after.now ≡ source.order },
}

impl Search<'_> {
    // Returns whether list number k is such a map.
    fn is_later_map(&self, k: usize) -> bool
        requires k_bound { k < self.now.target.order ^ self.now.source.order }
        ensures answer { result ≡ (is_map (kind_of self.now.kind) self.now.source.order (product_of self.now.source) self.now.target.order (product_of self.now.target) (numbered self.now.source.order self.now.target.order k) && earlier self.now.after.now (numbered self.now.source.order self.now.target.order k)) }
    {
        let m = self.source.order;
        let list = list_number(m, self.target.order, k);
        let map = Map {
            source: self.source,
            target: self.target,
            images: &list[..m],
        };
        map.is_map(self.kind) && earlier(self.after, map.images)
    }

    // Returns the number of the earliest such map, if there is one.
    fn next_number(&self) -> Option<usize>
        ensures answer { Option.map (numbered self.now.source.order self.now.target.order) (optional result) ≡ earliest (next self.now.after.now) (maps (kind_of self.now.kind) self.now.source.order (product_of self.now.source) self.now.target.order (product_of self.now.target)) }
        ensures below { MatchOption result (Unit {0}) (λ k. k < self.now.target.order ^ self.now.source.order) }
    {
        (0..number_of_lists(self.source.order, self.target.order)).find(|k| self.is_later_map(*k))
    }
}

// Returns the earliest map of the kind that is later than the list `after`, if there is one, at the start of an array; the bytes after it are 0.
pub fn next_map(kind: Kind, source: &Table, target: &Table, after: &[u8]) -> Option<[u8; 9]>
    requires small { source.now.order ≤ 9 }
    requires after_len { length after.now ≡ source.now.order }
    ensures answer { optional result ≡ Option.map (λ f. f ++ drop source.now.order (replicate 9 0)) (earliest (next after.now) (maps (kind_of kind) source.now.order (product_of source.now) target.now.order (product_of target.now))) }
{
    let search = Search {
        kind,
        source: *source,
        target: *target,
        after,
    };
    let k = search.next_number()?;
    Some(list_number(source.order, target.order, k))
}
