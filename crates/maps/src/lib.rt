// The map check: whether m bytes are an embedding of one table in another; if not, their earliest fault. Tables and bytes may have any content; a call is
// refused by the first question that fails. `embeds` is the check without the questions; `write_images` writes a map that was found.

#![tactic(auto)]

ghost use Rattle.std.specs.Prelude.{◌≡◌, ℕ, ◌≤◌, length, take};
ghost use Rattle.semigroups.specs.Lists.{at};
ghost use Rattle.semigroups.specs.Tables.{largest_order, Product, Element};
ghost use Rattle.semigroups.specs.InnerTables.{IsList};
ghost use Rattle.semigroups.specs.Maps.{is_embedding};
ghost use Rattle.semigroups.specs.MapCheck.{first_equal, first_wrong, check_map};
ghost use Rattle.answers.specs.Answers.{side_refusal, refusal_numbers};
ghost use Rattle.products.specs.Tables.{times_of};
ghost use Rattle.maps.specs.Calls.{map_check};
ghost use Rattle.maps.specs.Answers.{map_refusal, examined, map_answer_says, pair_option};

use tables::limits::ORDER;
use tables::{Fault, Refusal, Side, SideFault, Table};

pub mod old;

// The earliest fault of a map.
#[derive(Clone, Copy)]
pub enum MapFault {
    // The first element whose image is no element of the target.
    Outside(usize),
    // The earliest pair with equal images.
    EqualImages(usize, usize),
    // The earliest pair whose product fails.
    WrongProduct(usize, usize),
}

// Why a map check is refused: one of questions 1 to 4 about a table fails; or 5, the map buffer does not have exactly m bytes.
#[derive(Clone, Copy)]
pub enum MapRefusal {
    Table(Side, Fault),
    MapLength,
}

// A fault of one of the tables.
impl From<SideFault> for MapRefusal {
    ghost from_gives = { λ fault r. map_refusal r ≡ side_refusal fault };

    fn from(refused: SideFault) -> Self {
        MapRefusal::Table(refused.side, refused.fault)
    }
}

impl MapRefusal {
    // Returns the refusal: its number, side and values.
    pub fn refusal(self) -> Refusal
        ensures answer { result ≡ refusal_numbers (map_refusal self) }
    {
        match self {
            MapRefusal::Table(side, fault) => fault.refusal().naming(side),
            MapRefusal::MapLength => Refusal::by(5, 0),
        }
    }
}

// Returns the image of element i.
#[tactic(auto, unfolding(semigroups::specs::Lists::at))]
fn image(map: &[u8], i: usize) -> usize
    requires { Element (length map.now) i }
    ensures answer { result ≡ at map.now i }
{
    map[i - 1] as usize
}

// Returns the earliest pair i < j with equal images, or none.
fn equal_images(map: &[u8]) -> Option<(usize, usize)>
    ensures answer { (s : Product) (n : ℕ) (t : Product) → pair_option result ≡ first_equal (length map.now) s n t map.now }
{
    let m = map.len();
    for i in 1..m + 1 {
        let first = image(map, i);
        for j in i + 1..m + 1 {
            if first == image(map, j) {
                return Some((i, j));
            }
        }
    }
    None
}

// Returns the earliest pair i, j for which the image of i·j is not the image of i times the image of j, or none.
fn wrong_product(source: &Table<'_>, target: &Table<'_>, map: &[u8]) -> Option<(usize, usize)>
    requires inside { IsList source.now.order target.now.order map.now }
    ensures answer { pair_option result ≡ first_wrong source.now.order (times_of source.now) target.now.order (times_of target.now) map.now }
{
    let m = source.order;
    for i in 1..m + 1 {
        let first = image(map, i);
        for j in 1..m + 1 {
            let ij = source.times(i, j);
            let second = image(map, j);
            if image(map, ij) != target.times(first, second) {
                return Some((i, j));
            }
        }
    }
    None
}

// Returns the earliest fault of `map`, if it has one. An image outside the target is looked for first, then equal images, then a wrong product.
fn examine(source: &Table<'_>, target: &Table<'_>, map: &[u8]) -> Result<(), MapFault>
    requires size { length map.now ≡ source.now.order }
    ensures answer { examined result ≡ check_map source.now.order (times_of source.now) target.now.order (times_of target.now) map.now }
{
    if let Some(i) = tables::outside(map, target.order) {
        return Err(MapFault::Outside(i));
    }
    if let Some((i, j)) = equal_images(map) {
        return Err(MapFault::EqualImages(i, j));
    }
    match wrong_product(source, target, map) {
        Some((i, j)) => Err(MapFault::WrongProduct(i, j)),
        None => Ok(()),
    }
}

// Returns whether `map` is an embedding of the source in the target. The map must have m bytes.
pub fn embeds(source: &Table<'_>, target: &Table<'_>, map: &[u8]) -> bool
    requires size { length map.now ≡ source.now.order }
    ensures answer { result ≡ is_embedding source.now.order (times_of source.now) target.now.order (times_of target.now) map.now }
{
    examine(source, target, map).is_ok()
}

// Answers the result of the map check, which is that the map holds or its earliest fault; or answers the first question that fails.
pub fn check(
    source: &[u8],
    m: usize,
    target: &[u8],
    n: usize,
    map: &[u8],
) -> Result<Result<(), MapFault>, MapRefusal>
    ensures answer { map_answer_says result ≡ map_check m source.now n target.now map.now }
{
    let pair = tables::accept_pair(source, m, target, n)?;
    if map.len() != m {
        return Err(MapRefusal::MapLength);
    }
    Ok(examine(&pair.source.table, &pair.target.table, map))
}

// Writes the first m entries of `image`, the images of the elements, to `map`.
pub fn write_images(map: &mut [u8], image: &[u8; ORDER], m: usize)
    requires { (length map.old ≡ m) × (m ≤ largest_order) × (length image.now ≡ 120) }
    ensures map { map.new ≡ take m image.now }
{
    map.copy_from_slice(&image[..m]);
}
