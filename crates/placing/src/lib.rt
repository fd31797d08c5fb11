// A map that is placed image by image (RULES 9.1): each placing is tested by the products of the new element alone, since what the pairs placed before it
// require is kept in the constraints.

#![tactic(auto)]

ghost use Rattle.std.specs.Prelude.{◌≡◌, true, false, [], ◌∷◌, ◌++◌, ℕ, ◌+◌, ◌-◌, ◌≤◌, ◌<◌, take, set, is_ok};
ghost use Rattle.semigroups.specs.Lists.{member};
ghost use Rattle.semigroups.specs.Tables.{largest_order, Element};
ghost use Rattle.semigroups.specs.Trials.{passes};
ghost use Rattle.products.specs.Tables.{times_of};
ghost use Rattle.constraints.specs.InnerTracking.{Placing, Tracks};
ghost use Rattle.placing.specs.InnerPlaced.{prefix, handed_back};

use constraints::{Attempt, Required};
use products::Table;
use products::limits::{ORDER, PLACES};

// The map placed so far. The image of element i is image[i - 1]; used[y] is 1 where y is an image. What the pairs placed require is no part of it: each call of
// the search lends its own to the calls inside it, so that it is copied once and not with every map that is placed, tested and passed on.
#[derive(Clone, Copy)]
pub struct Partial {
    pub image: [u8; ORDER],
    pub used: [u8; PLACES],
    pub len: usize,
}

impl Partial {
    // Returns the map with nothing placed.
    pub fn new() -> Self
        ensures empty { result.len ≡ 0 }
        ensures placing { (n : ℕ) → Placing n result.image result.used result.len }
    {
        Partial {
            image: [0u8; ORDER],
            used: [0u8; PLACES],
            len: 0,
        }
    }

    // Returns the map with x as the image of the next element.
    fn place(mut self, n: usize, x: usize) -> Self
        requires placing { Placing n self.image self.used self.len }
        requires element { Element n x × (n ≤ largest_order) }
        requires room { self.len < largest_order }
        requires fresh { member x (prefix self) ≡ false }
        ensures placing { Placing n result.image result.used result.len }
        ensures longer { prefix result ≡ prefix self ++ x ∷ [] }
        ensures before { take self.len result.image ≡ prefix self }
        ensures one_more { result.len ≡ self.len + 1 }
        ensures image { result.image ≡ set self.image self.len x }
    {
        self.image[self.len] = x as u8;
        self.used[x] = 1;
        self.len += 1;
        self
    }

    // Tests the newest element. Returns the map as it was: `Ok` if the list placed passes, else `Err`. The list must pass without that element, and what is
    // required is that of the list without it.
    fn test(self, source: &Table<'_>, target: &Table<'_>, required: &Required) -> Result<Self, Self>
        requires placing { Placing target.now.order self.image self.used self.len }
        requires some { Element source.now.order self.len }
        requires tracks { Tracks (times_of source.now) (times_of target.now) (take (self.len - 1) self.image) (self.len - 1) 0 required.now.forced required.now.owner }
        requires passed { passes (times_of source.now) (times_of target.now) (take (self.len - 1) self.image) ≡ true }
        ensures answer { is_ok result ≡ passes (times_of source.now) (times_of target.now) (prefix self) }
        ensures same { handed_back result ≡ self }
    {
        let before = self.len - 1;
        let x = self.image[before] as usize;
        let image = &self.image;
        let used = &self.used;
        let newest = Attempt {
            source,
            target,
            image,
            used,
            len: before,
            x,
        };
        if !required.passes_with(&newest) {
            return Err(self);
        }
        Ok(self)
    }

    // Places x as the image of the next element and tests it. Returns the map with x placed: `Ok` if the list with x passes, else `Err`. What is required is
    // that of the list without x.
    pub fn tried(
        self,
        source: &Table<'_>,
        target: &Table<'_>,
        required: &Required,
        x: usize,
    ) -> Result<Self, Self>
        requires placing { Placing target.now.order self.image self.used self.len }
        requires tracks { Tracks (times_of source.now) (times_of target.now) (prefix self) self.len 0 required.now.forced required.now.owner }
        requires passed { passes (times_of source.now) (times_of target.now) (prefix self) ≡ true }
        requires element { Element target.now.order x }
        requires room { self.len < source.now.order }
        requires fresh { member x (prefix self) ≡ false }
        ensures answer { is_ok result ≡ passes (times_of source.now) (times_of target.now) (prefix self ++ x ∷ []) }
        ensures placing { Placing target.now.order (handed_back result).image (handed_back result).used (handed_back result).len }
        ensures longer { prefix (handed_back result) ≡ prefix self ++ x ∷ [] }
        ensures before { take self.len (handed_back result).image ≡ prefix self }
        ensures one_more { (handed_back result).len ≡ self.len + 1 }
        ensures image { (handed_back result).image ≡ set self.image self.len x }
    {
        self.place(target.order, x).test(source, target, required)
    }
}
