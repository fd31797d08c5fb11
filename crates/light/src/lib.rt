// Question 4 by Light's associativity test. Elements that generate the whole table are chosen, the rarest first; if few are enough, only the triples whose
// middle is one of them are looked at. A "no" says that some triple does not associate, but not which one is first: `associative` in crate `tables` looks for
// that.

#![tactic(auto)]

ghost use Rattle.std.specs.Prelude.{◌≡◌, MatchOption, true, false, List, [], map, ℕ, ◌-◌, ◌≤◌, ◌<◌, length, take, get_or};
ghost use Rattle.semigroups.specs.Lists.{elements, all, member};
ghost use Rattle.semigroups.specs.InnerLists.{NoRepeats};
ghost use Rattle.semigroups.specs.Tables.{largest_order, Element, associates};
ghost use Rattle.semigroups.specs.InnerGenerated.{Inside};
ghost use Rattle.products.specs.Tables.{times_of};
ghost use Rattle.light.specs.InnerFound.{indicator, adding, adding_all, Found};
ghost use Rattle.light.specs.InnerChoice.{FoundProducts, RarestOrNone, Choice, GivenUp, good_middle, LightsAnswer};

use products::Table;
use products::limits::{ORDER, PLACES};
use std::marker::Model;

// ---- elements found one by one

// Elements found one by one: a clause sees the list of them, the first found first. They stand at the start of `list`, and each has a mark.
#[derive(Drop)]
pub struct FoundElements {
    list: [u8; ORDER],
    marks: [u8; PLACES],
    count: usize,
}

impl Model for FoundElements {
    ghost Value = { List ℕ };

    ghost view = { λ f. take f.count f.list };

    ghost invariant = { λ f. Found (take f.count f.list) f.list f.marks f.count };
}

impl FoundElements {
    // Returns a list of no elements.
    pub fn new() -> FoundElements
        ensures answer { result ≡ [] }
    {
        FoundElements {
            list: [0; ORDER],
            marks: [0; PLACES],
            count: 0,
        }
    }

    // Returns how many elements are found. Each is found once.
    pub fn len(&self) -> usize
        ensures answer { result ≡ length self.now }
        ensures few { result ≤ largest_order }
        ensures once { NoRepeats self.now }
    {
        self.count
    }

    // Returns the elements found.
    pub fn as_slice(&self) -> &[u8]
        ensures answer { result.now ≡ self.now }
    {
        &self.list[..self.count]
    }

    // Returns a mark for each element found: place x is 1 where x is one of them, else 0.
    pub fn marks(&self) -> [u8; PLACES]
        ensures answer { result ≡ indicator self.now }
    {
        self.marks
    }

    // Returns the element at a place, counted from 0.
    pub fn at(&self, place: usize) -> usize
        requires { place < length self.now }
        ensures answer { result ≡ get_or self.now place 0 }
        ensures within { place < largest_order }
    {
        self.list[place] as usize
    }

    // Returns whether x is found.
    pub fn holds(&self, x: usize) -> bool
        requires { x ≤ largest_order }
        ensures answer { result ≡ member x self.now }
    {
        self.marks[x] != 0
    }

    // Adds x unless it is found.
    pub fn add(&mut self, x: usize)
        requires { Element largest_order x }
        ensures answer { self.new ≡ adding self.old x }
    {
        if self.marks[x] == 0 {
            self.marks[x] = 1;
            self.list[self.count] = x as u8;
            self.count += 1;
        }
    }
}

// Adds to the elements found the products of the one at `place`, as the left factor, with each entry of the list.
fn multiply_right(table: &Table<'_>, list: &[u8], found: &mut FoundElements, place: usize)
    requires list { Inside table.now.order list.now }
    requires found { Inside table.now.order found.old }
    requires place { place < length found.old }
    ensures found { found.new ≡ adding_all found.old (map (times_of table.now (get_or found.old place 0)) list.now) }
{
    let x = found.at(place);
    for y in list {
        found.add(table.times(x, *y as usize));
    }
}

// Adds to the elements found what the last entry of the list makes possible among products from left to right: the entry itself; each element found before,
// times the entry; and each new element, times every entry.
fn reach(table: &Table<'_>, list: &[u8], found: &mut FoundElements)
    requires list { Inside table.now.order list.now }
    requires some { 1 ≤ length list.now }
    requires before { FoundProducts (times_of table.now) (take (length list.now - 1) list.now) found.old }
    ensures found { FoundProducts (times_of table.now) list.now found.new }
{
    let last = list.len() - 1;
    let count = found.len();
    found.add(list[last] as usize);
    for place in 0..count {
        multiply_right(table, &list[last..], found, place);
    }
    let mut place = count;
    // A while: a turn makes more elements to come to.
    while place < found.len() {
        multiply_right(table, list, found, place);
        place += 1;
    }
}

// ---- the choice of generators

// Returns the rarest element that is not found, and of equally rare ones the smallest; or none if all are found. The count of element a stands at place a - 1.
fn rarest(counts: &[u16; ORDER], found: &FoundElements, n: usize) -> Option<usize>
    requires { n ≤ largest_order }
    ensures rarest { RarestOrNone n (λ x. get_or counts.now (x - 1) 0) (λ x. member x found.now ≡ false) result }
{
    let mut chosen = None;
    for x in 1..n + 1 {
        if !found.holds(x) {
            match chosen {
                None => chosen = Some(x),
                Some(c) => {
                    if counts[x - 1] < counts[c - 1] {
                        chosen = Some(x);
                    }
                }
            }
        }
    }
    chosen
}

// The generators chosen, which are the first `count` entries.
#[derive(Clone, Copy)]
struct Generators {
    list: [u8; 30],
    count: usize,
}

// Chooses at most n / 4 generators and returns them; or none if some element is no product of so many. Each is the rarest element that is not a product, from
// left to right, of those before it.
fn choose(table: &Table<'_>) -> Option<Generators>
    ensures choice { MatchOption result (GivenUp table.now.order (times_of table.now)) (λ g. Choice table.now.order (times_of table.now) g.list g.count true) }
{
    let n = table.order;
    let counts = table.frequencies();
    let mut list = [0u8; 30];
    let mut count: usize = 0;
    let mut found = FoundElements::new();
    // A while: the generators are not known before.
    while let Some(x) = rarest(&counts, &found, n) {
        if n / 4 <= count {
            return None;
        }
        list[count] = x as u8;
        count += 1;
        reach(table, &list[..count], &mut found);
    }
    Some(Generators { list, count })
}

// ---- triples with a given middle

// Returns whether (i·j)·k = i·(j·k) for every k.
fn associative_pair(table: &Table<'_>, i: usize, j: usize) -> bool
    requires left { Element table.now.order i }
    requires right { Element table.now.order j }
    ensures answer { result ≡ all (associates (times_of table.now) i j) (elements table.now.order) }
{
    table.failing_third(i, j).is_none()
}

// Returns whether every triple with j in the middle associates.
fn associative_at(table: &Table<'_>, j: usize) -> bool
    requires { Element table.now.order j }
    ensures answer { result ≡ good_middle table.now.order (times_of table.now) j }
{
    (1..table.order + 1).all(|i| associative_pair(table, i, j))
}

// Returns whether every triple with its middle on the list associates.
fn associative_through(table: &Table<'_>, list: &[u8]) -> bool
    requires { Inside table.now.order list.now }
    ensures answer { result ≡ all (good_middle table.now.order (times_of table.now)) list.now }
{
    list.iter().all(|j| associative_at(table, *j as usize))
}

// Returns whether every triple associates.
fn associative_everywhere(table: &Table<'_>) -> bool
    ensures answer { result ≡ all (good_middle table.now.order (times_of table.now)) (elements table.now.order) }
{
    (1..table.order + 1).all(|j| associative_at(table, j))
}

// Returns whether every triple whose middle is one of the generators chosen associates; if too many would be needed, whether every triple associates. Either
// way, a table is associative exactly if the answer is true.
pub fn accept(table: &Table<'_>) -> bool
    ensures answer { LightsAnswer table.now.order (times_of table.now) result }
{
    match choose(table) {
        Some(chosen) => associative_through(table, &chosen.list[..chosen.count]),
        None => associative_everywhere(table),
    }
}
