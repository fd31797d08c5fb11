// The fewest rest positions of a table: the least degree from 1 to 3 whose table of all transformations holds an embedding, and the landing positions of each
// element under the first one. The tables come from `transformations` and the embeddings from `kinds`; only their contracts are used. Table and buffer may
// have any content; the first "no" is the answer, and the buffer then keeps its bytes.

#![tactic(auto)]

ghost use Rattle.std.specs.Prelude.{◌≡◌, cond, ◌*◌, ◌≤◌, length};
ghost use Rattle.std.proofs.Math.Option.{none, some, get_or};
ghost use Rattle.semigroups.specs.Lists.{at};
ghost use Rattle.semigroups.specs.Tables.{largest_order, product, Element, Accepted};
ghost use Rattle.semigroups.specs.InnerTables.{IsList};
ghost use Rattle.semigroups.specs.Calls.{overwritten};
ghost use Rattle.semigroups.specs.Results.{optional};
ghost use Rattle.semigroups.specs.Transformations.{transformation_order, transformation};
ghost use Rattle.planning.specs.Degrees.{first_at, least_fit, least_degree, landings, fit_positions};
ghost use Rattle.planning.specs.InnerDegrees.{least_embedding};
ghost use Rattle.planning.specs.Answers.{degree_answer_says};
ghost use Rattle.planning.specs.Calls.{degree_says, positions_after};

use kinds::Kind;
use tables::No;

// ---- landing positions

// Returns where transformation number k of `degree` points takes point x. The digits of k - 1 in base `degree` are the images of the points, each less one.
fn landing(degree: usize, k: usize, x: usize) -> usize
    requires degree { Element 3 degree }
    requires number { Element (transformation_order degree) k }
    requires point { Element degree x }
    ensures answer { result ≡ at (transformation degree k) x }
{
    let mut rest = k - 1;
    for _point in x..degree {
        rest /= degree;
    }
    rest % degree + 1
}

// Writes to the start of `positions`, for each element in turn, the landing positions of its image; later bytes are untouched.
fn write_positions(image: &[u8], degree: usize, positions: &mut [u8])
    requires few { length image.now ≤ largest_order }
    requires degree { Element 3 degree }
    requires image { IsList (length image.now) (transformation_order degree) image.now }
    requires room { length image.now * 3 ≤ length positions.old }
    ensures positions { positions.new ≡ overwritten (landings (length image.now) degree image.now) positions.old }
{
    for (i, k) in image.iter().enumerate() {
        for x in 1..degree + 1 {
            positions[i * degree + (x - 1)] = landing(degree, *k as usize, x) as u8;
        }
    }
}

// ---- the least degree

// Returns whether the table of all transformations of `degree` points holds an embedding. The first one is written to `image`, which keeps its bytes if there
// is none. The tables are accepted and the buffers have the right length, so no question is asked.
fn fits(cells: &[u8], m: usize, degree: usize, image: &mut [u8]) -> bool
    requires accepted { Accepted m cells.now }
    requires few { m ≤ 27 }
    requires degree { Element 3 degree }
    requires image { length image.old ≡ m }
    ensures first { cond result (some image.new) none ≡ first_at m (product m cells.now) degree }
    ensures image { image.new ≡ get_or (first_at m (product m cells.now) degree) image.old }
{
    let mut target = [0u8; 729];
    let filled = transformations::fill(degree, &mut target);
    let Ok(n) = filled else {
        return false;
    };
    let size = n * n;
    let mut scratch = [0u8; 729];
    kinds::find(
        Kind::Embeddings,
        false,
        cells,
        m,
        &target[..size],
        n,
        image,
        &mut scratch,
    )
}

// Tries the degrees from 1 upward. At the first that fits it writes the first embedding to `image` and its positions to `positions`, and returns the degree;
// if none fits, no byte changes.
fn place(cells: &[u8], m: usize, image: &mut [u8], positions: &mut [u8]) -> Option<usize>
    requires accepted { Accepted m cells.now }
    requires few { m ≤ 27 }
    requires image { length image.old ≡ m }
    requires room { m * 3 ≤ length positions.old }
    ensures answer { optional result ≡ least_degree m (product m cells.now) }
    ensures image { image.new ≡ get_or (least_embedding m (product m cells.now)) image.old }
    ensures positions { positions.new ≡ overwritten (fit_positions m (least_fit m (product m cells.now))) positions.old }
{
    for degree in 1..4 {
        if fits(cells, m, degree, image) {
            write_positions(image, degree, positions);
            return Some(degree);
        }
    }
    None
}

// Answers the least degree from 1 to 3 whose table of all transformations holds an embedding of the table; or none of these; or the earliest question that
// fails. The landing positions of each element in turn under the first embedding are written to the start of `positions`.
pub fn least_degree(cells: &[u8], m: usize, positions: &mut [u8]) -> Result<Option<usize>, No>
    ensures answer { degree_answer_says result ≡ degree_says m cells.now (length positions.old) }
    ensures positions { positions.new ≡ positions_after m cells.now positions.old }
{
    tables::check(cells, m)?;
    if positions.len() < m * 3 {
        return Err(No::Bare(80));
    }
    if 27 < m {
        return Ok(None);
    }
    let mut image = [0u8; 27];
    Ok(place(cells, m, &mut image[..m], positions))
}
