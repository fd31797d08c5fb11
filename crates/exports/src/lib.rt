// The library's entry points for programs in C and Rust: numbers and lent slices of any content. Each writes sixteen numbers to `answer`: the number of
// the earliest failed question, or 0; the side that a refusal names, 1 for source or 2 for target, or 0; then the values of the answer, and zeros. A refused
// call changes no other byte. A search or a count of copies that is not refused leaves the marks of the candidates at the start of `scratch`.

#![tactic(auto)]

ghost use Rattle.std.specs.Prelude.{◌≡◌, length};
ghost use Rattle.semigroups.specs.Tables.{product};
ghost use Rattle.semigroups.specs.Invariants.{index_period, profile};
ghost use Rattle.semigroups.specs.Maps.{embeddings, isomorphisms, reversed, first, next};
ghost use Rattle.semigroups.specs.Questions.{table_refusal, element_refusal};
ghost use Rattle.semigroups.specs.Light.{generators_refusal};
ghost use Rattle.semigroups.specs.Calls.{given_unless};
ghost use Rattle.maps.specs.Calls.{map_check};
ghost use Rattle.calls.specs.Subsemigroups.{subsemigroup_says, part_after, elements_after};
ghost use Rattle.calls.specs.Copies.{copies_says, copies_scratch};
ghost use Rattle.calls.specs.Calls.{lend, call, called};
ghost use Rattle.calls.specs.Limited.{limited_call};
ghost use Rattle.calls.specs.Among.{call_among};
ghost use Rattle.transformations.specs.Calls.{transformation_says, transformation_cells_after};
ghost use Rattle.rfc4180.specs.Calls.{load_answer, cells_after, save_answer, text_after};
ghost use Rattle.numbers.specs.Numbers.{question_words, answer_words, index_period_values, profile_values, checked_values, sought_values, limited_values, number_values, degree_values, copies_values};
ghost use Rattle.numbers.specs.Returned.{words_of};
ghost use Rattle.planning.specs.Calls.{degree_says, positions_after};
ghost use Rattle.sheets.specs.Readings.{Reading};
ghost use Rattle.sheets.specs.Calls.{load_names_answer, names_after, lengths_after, save_names_answer, sheet_after};

use copies::copies_words;
use kinds::Kind;
use outcomes::{degree_words, limited_words, search_words};
use words::{
    generators_words, index_period_words, map_words, numbered_words, profile_words, verdict_words,
};

// ---- tables and elements

// Asks the four questions about a table. No values.
#[unsafe(no_mangle)]
pub extern "C" fn tickdrizzle_check_table(cells: &[u8], order: usize, answer: &mut [u64; 16])
    ensures answer { answer.new ≡ question_words (table_refusal order cells.now) }
{
    *answer = verdict_words(tables::check(cells, order));
}

// Computes the index-period of an element. Values: its index, its period and its idempotent power.
#[unsafe(no_mangle)]
pub extern "C" fn tickdrizzle_index_period(
    cells: &[u8],
    order: usize,
    element: usize,
    answer: &mut [u64; 16],
)
    ensures answer { answer.new ≡ answer_words index_period_values (given_unless (element_refusal order cells.now element) (index_period order (product order cells.now) element)) }
{
    *answer = index_period_words(invariants::index_period(cells, order, element));
}

// Computes the profile of an element. Values: its index, period and idempotent power; its frequency, and its frequencies on the diagonal, in its row and in its
// column; and how many elements it commutes with.
#[unsafe(no_mangle)]
pub extern "C" fn tickdrizzle_profile(
    cells: &[u8],
    order: usize,
    element: usize,
    answer: &mut [u64; 16],
)
    ensures answer { answer.new ≡ answer_words profile_values (given_unless (element_refusal order cells.now element) (profile order (product order cells.now) element)) }
{
    *answer = profile_words(invariants::profile(cells, order, element));
}

// ---- maps

// Checks a map as an embedding of the source in the target. Values: 0 where it holds; or the earliest fault, 1 with the element whose image is
// outside, 2 with the pair that has equal images, 3 with the pair whose product fails.
#[unsafe(no_mangle)]
pub extern "C" fn tickdrizzle_check_map(
    source: &[u8],
    m: usize,
    target: &[u8],
    n: usize,
    map: &[u8],
    answer: &mut [u64; 16],
)
    ensures answer { answer.new ≡ answer_words checked_values (map_check m source.now n target.now map.now) }
{
    *answer = map_words(maps::check(source, m, target, n, map));
}

// Writes the earliest embedding of the source in the target to `map`. Value: 1 for found, 0 for none.
#[unsafe(no_mangle)]
pub extern "C" fn tickdrizzle_first_embedding(
    source: &[u8],
    m: usize,
    target: &[u8],
    n: usize,
    map: &mut [u8],
    scratch: &mut [u8],
    answer: &mut [u64; 16],
)
    ensures call { called answer.new map.new scratch.new ≡ words_of sought_values (call embeddings first (lend source.now m target.now n map.old scratch.old)) }
{
    *answer = search_words(search::first(Kind::Embeddings, source, m, target, n, map, scratch));
}

// Replaces the bytes of `map` by the earliest embedding that is later than these bytes. Value: 1 for found, 0 for none.
#[unsafe(no_mangle)]
pub extern "C" fn tickdrizzle_next_embedding(
    source: &[u8],
    m: usize,
    target: &[u8],
    n: usize,
    map: &mut [u8],
    scratch: &mut [u8],
    answer: &mut [u64; 16],
)
    ensures call { called answer.new map.new scratch.new ≡ words_of sought_values (call embeddings (next map.old) (lend source.now m target.now n map.old scratch.old)) }
{
    *answer = search_words(search::next(Kind::Embeddings, source, m, target, n, map, scratch));
}

// Writes the earliest isomorphism of the source onto the target to `map`. Value: 1 for found, 0 for none.
#[unsafe(no_mangle)]
pub extern "C" fn tickdrizzle_first_isomorphism(
    source: &[u8],
    m: usize,
    target: &[u8],
    n: usize,
    map: &mut [u8],
    scratch: &mut [u8],
    answer: &mut [u64; 16],
)
    ensures call { called answer.new map.new scratch.new ≡ words_of sought_values (call isomorphisms first (lend source.now m target.now n map.old scratch.old)) }
{
    *answer = search_words(search::first(Kind::Isomorphisms, source, m, target, n, map, scratch));
}

// Replaces the bytes of `map` by the earliest isomorphism that is later than these bytes. Value: 1 for found, 0 for none.
#[unsafe(no_mangle)]
pub extern "C" fn tickdrizzle_next_isomorphism(
    source: &[u8],
    m: usize,
    target: &[u8],
    n: usize,
    map: &mut [u8],
    scratch: &mut [u8],
    answer: &mut [u64; 16],
)
    ensures call { called answer.new map.new scratch.new ≡ words_of sought_values (call isomorphisms (next map.old) (lend source.now m target.now n map.old scratch.old)) }
{
    *answer = search_words(search::next(Kind::Isomorphisms, source, m, target, n, map, scratch));
}

// Writes the earliest reversed isomorphism of the source onto the target to `map`. Value: 1 for found, 0 for none.
#[unsafe(no_mangle)]
pub extern "C" fn tickdrizzle_first_reversed_isomorphism(
    source: &[u8],
    m: usize,
    target: &[u8],
    n: usize,
    map: &mut [u8],
    scratch: &mut [u8],
    answer: &mut [u64; 16],
)
    ensures call { called answer.new map.new scratch.new ≡ words_of sought_values (call reversed first (lend source.now m target.now n map.old scratch.old)) }
{
    *answer = search_words(search::first(Kind::Reversed, source, m, target, n, map, scratch));
}

// Replaces the bytes of `map` by the earliest reversed isomorphism that is later than these bytes. Value: 1 for found, 0 for none.
#[unsafe(no_mangle)]
pub extern "C" fn tickdrizzle_next_reversed_isomorphism(
    source: &[u8],
    m: usize,
    target: &[u8],
    n: usize,
    map: &mut [u8],
    scratch: &mut [u8],
    answer: &mut [u64; 16],
)
    ensures call { called answer.new map.new scratch.new ≡ words_of sought_values (call reversed (next map.old) (lend source.now m target.now n map.old scratch.old)) }
{
    *answer = search_words(search::next(Kind::Reversed, source, m, target, n, map, scratch));
}

// ---- what a list of elements generates

// Asks the questions about a table and a list of its generators; question 4 only of the triples with their middle on the list. No values.
#[unsafe(no_mangle)]
pub extern "C" fn tickdrizzle_check_generated(
    cells: &[u8],
    order: usize,
    generators: &[u8],
    answer: &mut [u64; 16],
)
    ensures answer { answer.new ≡ question_words (generators_refusal order cells.now generators.now) }
{
    *answer = generators_words(generated::check(cells, order, generators));
}

// Writes the elements that the chosen ones generate, in rising order, to the start of `elements`, and their table, renumbered, to the start of `part`.
// Value: its order.
#[unsafe(no_mangle)]
pub extern "C" fn tickdrizzle_subsemigroup(
    cells: &[u8],
    order: usize,
    chosen: &[u8],
    part: &mut [u8],
    elements: &mut [u8],
    answer: &mut [u64; 16],
)
    ensures answer { answer.new ≡ answer_words number_values (subsemigroup_says order cells.now chosen.now (length part.old) (length elements.old)) }
    ensures part { part.new ≡ part_after order cells.now chosen.now part.old (length elements.old) }
    ensures elements { elements.new ≡ elements_after order cells.now chosen.now (length part.old) elements.old }
{
    *answer = numbered_words(parts::subsemigroup(cells, order, chosen, part, elements));
}

// ---- transformations

// Writes the table of all transformations of `degree` points to the start of `cells`. Value: its order.
#[unsafe(no_mangle)]
pub extern "C" fn tickdrizzle_transformations(
    degree: usize,
    cells: &mut [u8],
    answer: &mut [u64; 16],
)
    ensures answer { answer.new ≡ answer_words number_values (transformation_says degree (length cells.old)) }
    ensures cells { cells.new ≡ transformation_cells_after degree cells.old }
{
    *answer = numbered_words(transformations::fill(degree, cells));
}

// ---- text

// Loads the table that `text` holds: writes its cells to the start of `cells`. Value: its order.
#[unsafe(no_mangle)]
pub extern "C" fn tickdrizzle_load(text: &[u8], cells: &mut [u8], answer: &mut [u64; 16])
    ensures answer { answer.new ≡ answer_words number_values (load_answer text.now cells.old) }
    ensures cells { cells.new ≡ cells_after text.now cells.old }
{
    *answer = numbered_words(text::load(text, cells));
}

// Saves a table: writes its text to the start of `text`. Value: the length of the text.
#[unsafe(no_mangle)]
pub extern "C" fn tickdrizzle_save(
    cells: &[u8],
    order: usize,
    text: &mut [u8],
    answer: &mut [u64; 16],
)
    ensures answer { answer.new ≡ answer_words number_values (save_answer order cells.now text.old) }
    ensures text { text.new ≡ text_after order cells.now text.old }
{
    *answer = numbered_words(saving::save(cells, order, text));
}

// ---- searches among given pairs

// Writes the earliest embedding of the source in the target that the pairs allow to `map`. Value: 1 for found, 0 for none.
#[unsafe(no_mangle)]
pub extern "C" fn tickdrizzle_first_embedding_among(
    source: &[u8],
    m: usize,
    target: &[u8],
    n: usize,
    pairs: &[u8],
    map: &mut [u8],
    scratch: &mut [u8],
    answer: &mut [u64; 16],
)
    ensures call { called answer.new map.new scratch.new ≡ words_of sought_values (call_among first pairs.now (lend source.now m target.now n map.old scratch.old)) }
{
    *answer = search_words(search::first_among(source, m, target, n, pairs, map, scratch));
}

// Replaces the bytes of `map` by the earliest embedding that the pairs allow and that is later than these bytes. Value: 1 for found, 0 for none.
#[unsafe(no_mangle)]
pub extern "C" fn tickdrizzle_next_embedding_among(
    source: &[u8],
    m: usize,
    target: &[u8],
    n: usize,
    pairs: &[u8],
    map: &mut [u8],
    scratch: &mut [u8],
    answer: &mut [u64; 16],
)
    ensures call { called answer.new map.new scratch.new ≡ words_of sought_values (call_among (next map.old) pairs.now (lend source.now m target.now n map.old scratch.old)) }
{
    *answer = search_words(search::next_among(source, m, target, n, pairs, map, scratch));
}

// ---- searches with a limit

// Writes the earliest embedding to `map` if the search needs at most `limit` trials. Values: 1 for found or 0 for none, and the number of trials; or 2 for
// stopped.
#[unsafe(no_mangle)]
pub extern "C" fn tickdrizzle_first_embedding_within(
    source: &[u8],
    m: usize,
    target: &[u8],
    n: usize,
    map: &mut [u8],
    scratch: &mut [u8],
    limit: u32,
    answer: &mut [u64; 16],
)
    ensures call { called answer.new map.new scratch.new ≡ words_of limited_values (limited_call embeddings limit (lend source.now m target.now n map.old scratch.old)) }
{
    *answer = limited_words(search::first_within(
        Kind::Embeddings,
        source,
        m,
        target,
        n,
        map,
        scratch,
        limit,
    ));
}

// Writes the earliest isomorphism to `map` if the search needs at most `limit` trials. Values: 1 for found or 0 for none, and the number of trials; or 2 for
// stopped.
#[unsafe(no_mangle)]
pub extern "C" fn tickdrizzle_first_isomorphism_within(
    source: &[u8],
    m: usize,
    target: &[u8],
    n: usize,
    map: &mut [u8],
    scratch: &mut [u8],
    limit: u32,
    answer: &mut [u64; 16],
)
    ensures call { called answer.new map.new scratch.new ≡ words_of limited_values (limited_call isomorphisms limit (lend source.now m target.now n map.old scratch.old)) }
{
    *answer = limited_words(search::first_within(
        Kind::Isomorphisms,
        source,
        m,
        target,
        n,
        map,
        scratch,
        limit,
    ));
}

// Writes the earliest reversed isomorphism to `map` if the search needs at most `limit` trials. Values: 1 for found or 0 for none, and the number of trials;
// or 2 for stopped.
#[unsafe(no_mangle)]
pub extern "C" fn tickdrizzle_first_reversed_isomorphism_within(
    source: &[u8],
    m: usize,
    target: &[u8],
    n: usize,
    map: &mut [u8],
    scratch: &mut [u8],
    limit: u32,
    answer: &mut [u64; 16],
)
    ensures call { called answer.new map.new scratch.new ≡ words_of limited_values (limited_call reversed limit (lend source.now m target.now n map.old scratch.old)) }
{
    *answer = limited_words(search::first_within(
        Kind::Reversed,
        source,
        m,
        target,
        n,
        map,
        scratch,
        limit,
    ));
}

// ---- the fewest rest positions

// Writes the landing positions of each element in turn to the start of `positions`, under the first embedding at the least degree that has one. Value: that
// degree, or 0 if none of 1 to 3 has one.
#[unsafe(no_mangle)]
pub extern "C" fn tickdrizzle_least_degree(
    cells: &[u8],
    order: usize,
    positions: &mut [u8],
    answer: &mut [u64; 16],
)
    ensures answer { answer.new ≡ answer_words degree_values (degree_says order cells.now (length positions.old)) }
    ensures positions { positions.new ≡ positions_after order cells.now positions.old }
{
    *answer = degree_words(planning::least_degree(cells, order, positions));
}

// ---- name sheets

// Loads the names on the sheet `text`: writes them, one after another, to the start of `names` and their lengths to the start of `lengths`. Value: how many
// there are. The contract holds for every reading of the text; each text has one, and all of them say the same (`Readable`, `SameReading`).
#[unsafe(no_mangle)]
pub extern "C" fn tickdrizzle_load_names(
    text: &[u8],
    names: &mut [u8],
    lengths: &mut [u8],
    answer: &mut [u64; 16],
)
    ensures answer { (w : Reading text.now) → answer.new ≡ answer_words number_values (load_names_answer w names.old lengths.old) }
    ensures names { (w : Reading text.now) → names.new ≡ names_after w names.old lengths.old }
    ensures lengths { (w : Reading text.now) → lengths.new ≡ lengths_after w names.old lengths.old }
{
    *answer = numbered_words(names::load(text, names, lengths));
}

// Saves names with these lengths: writes their sheet to the start of `text`. Value: the length of the sheet.
#[unsafe(no_mangle)]
pub extern "C" fn tickdrizzle_save_names(
    names: &[u8],
    lengths: &[u8],
    text: &mut [u8],
    answer: &mut [u64; 16],
)
    ensures answer { answer.new ≡ answer_words number_values (save_names_answer names.now lengths.now text.old) }
    ensures text { text.new ≡ sheet_after names.now lengths.now text.old }
{
    *answer = numbered_words(names::save(names, lengths, text));
}

// ---- copies

// Counts the different copies of the source in the target. Values: 0 and their number, up to 65,535; or 1 where there are more.
#[unsafe(no_mangle)]
pub extern "C" fn tickdrizzle_copies(
    source: &[u8],
    m: usize,
    target: &[u8],
    n: usize,
    scratch: &mut [u8],
    answer: &mut [u64; 16],
)
    ensures answer { answer.new ≡ answer_words copies_values (copies_says m source.now n target.now (length scratch.old)) }
    ensures scratch { scratch.new ≡ copies_scratch m source.now n target.now scratch.old }
{
    *answer = copies_words(copies::copies(source, m, target, n, scratch));
}
