// What a search is asked.

ghost use Rattle.std.specs.Prelude.{◌≡◌, ◌≤◌, length};
ghost use Rattle.semigroups.specs.Scratch.{scratch_size};

use products::Table;

// What a search goes by: the two tables, the marks of the candidates in `scratch`, and the list that bounds it where the next map is asked for.
#[derive(Clone, Copy)]
pub struct Search<'a> {
    pub source: &'a Table<'a>,
    pub target: &'a Table<'a>,
    pub scratch: &'a [u8],
    pub after: &'a [u8],
    pub ghost space: { scratch_size source.now.order target.now.order ≤ length scratch.now },
    pub ghost bound: { length after.now ≡ source.now.order },
}
