// The constraints by which the backtrack search of arXiv 1603.06204, section 3, tests a placing through the products of the new element alone: forced[c] is
// the target element that the placed pairs require as the image of source element c, and owner[y] is the source element for which they reserve target element
// y. Both are 0 where nothing is required, and 255, which is no element, where two different values are. Place 0 stands for no element.

#![tactic(auto)]

ghost use Rattle.std.specs.Prelude.{◌≡◌, true, false, ◌&&◌, [], ◌∷◌, ◌++◌, ℕ, ◌+◌, ◌-◌, ◌≤◌, ◌<◌, length, get_or, take};
ghost use Rattle.semigroups.specs.Lists.{at, member};
ghost use Rattle.semigroups.specs.Tables.{largest_order, Product, Element};
ghost use Rattle.semigroups.specs.Trials.{fits, passes};
ghost use Rattle.products.specs.Tables.{times_of};
ghost use Rattle.constraints.specs.InnerConstraints.{permits, asked_at, image_product, new_fits, near_fits};
ghost use Rattle.constraints.specs.InnerTracking.{Trial, Tracks};

use products::Table;
use products::limits::{ORDER, PLACES};

// Returns whether a constraint permits the value y.
fn allowed(constraint: u8, y: usize) -> bool
    ensures answer { result ≡ permits constraint y }
{
    constraint == 0 || constraint as usize == y
}

// Notes that the value y is also required at this place.
fn note(constraints: &mut [u8; PLACES], place: usize, y: usize)
    requires { (place ≤ largest_order) × (y ≤ largest_order) }
    ensures constraints { constraints.new ≡ asked_at constraints.old place y }
{
    if allowed(constraints[place], y) {
        constraints[place] = y as u8;
    } else {
        constraints[place] = 255;
    }
}

// ---- an element tried as the next image

// An element x tried as the image of the next element: the two tables, the images of the first `len` elements, the target elements that they use (whether
// `used` already marks x makes no difference), and x.
#[derive(Clone, Copy)]
pub struct Attempt<'a> {
    pub source: &'a Table<'a>,
    pub target: &'a Table<'a>,
    pub image: &'a [u8; ORDER],
    pub used: &'a [u8; PLACES],
    pub len: usize,
    pub x: usize,
    pub ghost trial: { Trial target.now.order image.now used.now len x },
    pub ghost room: { len < source.now.order },
}

impl Attempt<'_> {
    ghost use Rattle.constraints.specs.InnerAttempt.{longer};

    // Returns the image of element a.
    fn image_of(&self, a: usize) -> usize
        requires { Element (self.now.len + 1) a }
        ensures answer { result ≡ at (longer self.now) a }
        ensures element { Element self.now.target.now.order result }
    {
        if a <= self.len {
            return self.image[a - 1] as usize;
        }
        self.x
    }

    // Returns whether the pair a, b fits: if the product of the pair is placed, its image is the product of the images; if it is not, that target element is
    // unused.
    fn pair_fits(&self, a: usize, b: usize) -> bool
        requires left { Element (self.now.len + 1) a }
        requires right { Element (self.now.len + 1) b }
        ensures answer { result ≡ fits (times_of self.now.source.now) (times_of self.now.target.now) (longer self.now) a b }
    {
        let c = self.source.times(a, b);
        let v = self.target.times(self.image_of(a), self.image_of(b));
        if c <= self.len + 1 {
            return self.image_of(c) == v;
        }
        v != self.x && self.used[v] == 0
    }

    // Returns whether the pairs of the next element fit.
    fn new_fits(&self) -> bool
        ensures answer { result ≡ new_fits (times_of self.now.source.now) (times_of self.now.target.now) (longer self.now) }
    {
        let next = self.len + 1;
        (1..next + 1).all(|j| self.pair_fits(j, next) && self.pair_fits(next, j))
    }

    // Returns whether the newest element and the next one fit as a pair. Where nothing is placed, the next element makes a pair with itself.
    fn near_fits(&self) -> bool
        ensures answer { result ≡ near_fits (times_of self.now.source.now) (times_of self.now.target.now) (longer self.now) }
    {
        self.pair_fits(self.len.max(1), self.len + 1)
    }
}

// ---- the constraints

// What the placed pairs require: `forced` of the images of source elements, and `owner` of the source elements that target elements are reserved for.
#[derive(Clone, Copy)]
pub struct Required {
    pub forced: [u8; PLACES],
    pub owner: [u8; PLACES],
}

impl Required {
    ghost use Rattle.constraints.specs.InnerAttempt.{placed_in, longer};

    // Returns the constraints that require nothing.
    pub fn nothing() -> Self
        ensures nothing { (s t : Product) → Tracks s t [] 0 0 result.forced result.owner }
    {
        Required {
            forced: [0u8; PLACES],
            owner: [0u8; PLACES],
        }
    }

    // Notes the pair a, b: its product must go to the product of the images, and that target element is reserved for it.
    #[tactic(auto, unfolding(semigroups::specs::Lists::at))]
    fn note_pair(
        &mut self,
        source: &Table<'_>,
        target: &Table<'_>,
        image: &[u8; ORDER],
        a: usize,
        b: usize,
    )
        requires left { Element source.now.order a × Element target.now.order (at image.now a) }
        requires right { Element source.now.order b × Element target.now.order (at image.now b) }
        ensures forced { self.new.forced ≡ asked_at self.old.forced (times_of source.now a b) (image_product (times_of target.now) image.now a b) }
        ensures owner { self.new.owner ≡ asked_at self.old.owner (image_product (times_of target.now) image.now a b) (times_of source.now a b) }
    {
        let c = source.times(a, b);
        let z = target.times(image[a - 1] as usize, image[b - 1] as usize);
        note(&mut self.forced, c, z);
        note(&mut self.owner, z, c);
    }

    // Notes the pairs that the newest element makes with each element placed, itself included. If no element is placed, nothing changes.
    pub fn note_newest(
        &mut self,
        source: &Table<'_>,
        target: &Table<'_>,
        image: &[u8; ORDER],
        len: usize,
    )
        requires within { len ≤ source.now.order }
        requires images { (a : ℕ) → Element len a → Element target.now.order (at image.now a) }
        requires tracks { Tracks (times_of source.now) (times_of target.now) (take len image.now) (len - 1) 0 self.old.forced self.old.owner }
        ensures constraints { Tracks (times_of source.now) (times_of target.now) (take len image.now) len 0 self.new.forced self.new.owner }
    {
        for j in 1..len + 1 {
            self.note_pair(source, target, image, j, len);
            self.note_pair(source, target, image, len, j);
        }
    }

    // Returns whether the constraints allow x as the image of element `next`.
    fn settled(&self, next: usize, x: usize) -> bool
        requires next { next ≤ largest_order }
        requires image { x ≤ largest_order }
        ensures answer { result ≡ (permits (get_or self.now.forced next 0) x && permits (get_or self.now.owner x 0) next) }
    {
        allowed(self.forced[next], x) && allowed(self.owner[x], next)
    }

    // Returns whether x is worth a test as the image of the next element: the constraints allow x, and the newest element and the next one fit as a pair. With
    // an x that is not worth a test, the list placed would not pass. This takes constant time. Only one pair is looked at, so that the compiler can put the
    // function into the loop of the search that calls it.
    pub fn may_pass(&self, attempt: &Attempt<'_>) -> bool
        requires fresh { member attempt.now.x (placed_in attempt.now) ≡ false }
        requires tracks { Tracks (times_of attempt.now.source.now) (times_of attempt.now.target.now) (placed_in attempt.now) attempt.now.len 0 self.now.forced self.now.owner }
        requires passed { passes (times_of attempt.now.source.now) (times_of attempt.now.target.now) (placed_in attempt.now) ≡ true }
        ensures answer { result ≡ ((permits (get_or self.now.forced (attempt.now.len + 1) 0) attempt.now.x && permits (get_or self.now.owner attempt.now.x 0) (attempt.now.len + 1)) && near_fits (times_of attempt.now.source.now) (times_of attempt.now.target.now) (longer attempt.now)) }
        ensures refused { result ≡ false → passes (times_of attempt.now.source.now) (times_of attempt.now.target.now) (longer attempt.now) ≡ false }
    {
        self.settled(attempt.len + 1, attempt.x) && attempt.near_fits()
    }

    // Returns whether the list placed passes with x as the image of the next element: the constraints allow x, and its new pairs fit.
    pub fn passes_with(&self, attempt: &Attempt<'_>) -> bool
        requires fresh { member attempt.now.x (placed_in attempt.now) ≡ false }
        requires tracks { Tracks (times_of attempt.now.source.now) (times_of attempt.now.target.now) (placed_in attempt.now) attempt.now.len 0 self.now.forced self.now.owner }
        requires passed { passes (times_of attempt.now.source.now) (times_of attempt.now.target.now) (placed_in attempt.now) ≡ true }
        ensures answer { result ≡ passes (times_of attempt.now.source.now) (times_of attempt.now.target.now) (longer attempt.now) }
    {
        self.settled(attempt.len + 1, attempt.x) && attempt.new_fits()
    }
}
