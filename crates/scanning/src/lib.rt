// Question 40, asked byte by byte: is a text one or more records of two fields, quoted or not? The definitions are in the crate `sheets`.

#![tactic(auto)]

ghost use Rattle.std.specs.Prelude.{◌≡◌, cond};
ghost use Rattle.std.proofs.Math.Option.{none, some};
ghost use Rattle.sheets.specs.Grammar.{is_printable, is_text_data, is_quotable};
ghost use Rattle.sheets.specs.InnerAutomaton.{after_field, bare_step, opening_step, state_after, accepting, is_dead, accepts, place};
ghost use Rattle.scanning.specs.declared.State.TheVariants.{Quoted, Shut, Cr};
ghost use Rattle.scanning.specs.InnerStates.{part_of, state_of, form_place};

// ---- bytes

// Returns whether b is printable: hexadecimal 20 to 7E.
#[tactic(auto, unfolding(sheets::specs::Grammar::is_printable))]
pub fn is_printable(b: u8) -> bool
    ensures answer { result ≡ is_printable b }
{
    matches!(b, 32..=126)
}

// Returns whether b may stand in a field with no quote marks around it.
#[tactic(auto, unfolding(sheets::specs::Grammar::is_text_data))]
fn is_text_data(b: u8) -> bool
    ensures answer { result ≡ is_text_data b }
{
    !matches!(b, 34 | 44) && is_printable(b)
}

// Returns whether b stands for itself between quote marks.
#[tactic(auto, unfolding(sheets::specs::Grammar::is_quotable))]
fn is_quotable(b: u8) -> bool
    ensures answer { result ≡ is_quotable b }
{
    match b {
        10 | 13 => true,
        34 => false,
        _ => is_printable(b),
    }
}

// ---- the states

// The two fields of a record.
#[derive(Clone, Copy, PartialEq, Eq)]
enum Part {
    Number,
    Name,
}

// Where the reading stands: at the start of a field; after a byte of a field with no quote marks; between quote marks; after a quote mark that closes the
// field or is the first of two; after CR; after CR LF; nowhere, because no sheet begins with what was read.
#[derive(Clone, Copy, PartialEq, Eq)]
enum State {
    Opening(Part),
    Bare(Part),
    Quoted(Part),
    Shut(Part),
    Cr,
    Line,
    Dead,
}

// Returns the state after a byte that follows a field: only a comma may follow the number, and only CR the name.
#[tactic(auto, unfolding(sheets::specs::InnerAutomaton::after_field))]
fn after_field(part: Part, b: u8) -> State
    ensures answer { state_of result ≡ after_field (part_of part) b }
{
    match (part, b) {
        (Part::Number, 44) => State::Opening(Part::Name),
        (Part::Name, 13) => State::Cr,
        _ => State::Dead,
    }
}

// Returns the state after a byte in a field with no quote marks.
#[tactic(auto, unfolding(sheets::specs::InnerAutomaton::bare_step))]
fn bare_step(part: Part, b: u8) -> State
    ensures answer { state_of result ≡ bare_step (part_of part) b }
{
    if is_text_data(b) {
        State::Bare(part)
    } else {
        after_field(part, b)
    }
}

// Returns the state after the first byte of a field.
#[tactic(auto, unfolding(sheets::specs::InnerAutomaton::opening_step))]
fn opening_step(part: Part, b: u8) -> State
    ensures answer { state_of result ≡ opening_step (part_of part) b }
{
    if b == 34 {
        State::Quoted(part)
    } else {
        bare_step(part, b)
    }
}

// Returns the state after a byte between quote marks.
#[tactic(auto, unfolding(sheets::specs::InnerAutomaton::state_after))]
fn quoted_step(part: Part, b: u8) -> State
    ensures answer { state_of result ≡ state_after (state_of (Quoted part)) b }
{
    match b {
        34 => State::Shut(part),
        _ if is_quotable(b) => State::Quoted(part),
        _ => State::Dead,
    }
}

// Returns the state after a byte that follows a quote mark inside or at the end of a quoted field.
#[tactic(auto, unfolding(sheets::specs::InnerAutomaton::state_after))]
fn shut_step(part: Part, b: u8) -> State
    ensures answer { state_of result ≡ state_after (state_of (Shut part)) b }
{
    if b == 34 {
        State::Quoted(part)
    } else {
        after_field(part, b)
    }
}

// Returns the state after a byte that follows CR.
#[tactic(auto, unfolding(sheets::specs::InnerAutomaton::state_after))]
fn cr_step(b: u8) -> State
    ensures answer { state_of result ≡ state_after (state_of Cr) b }
{
    if b == 10 { State::Line } else { State::Dead }
}

// Returns the state after one more byte.
#[tactic(auto, unfolding(sheets::specs::InnerAutomaton::state_after))]
fn step(state: State, b: u8) -> State
    ensures answer { state_of result ≡ state_after (state_of state) b }
{
    match state {
        State::Opening(part) => opening_step(part, b),
        State::Bare(part) => bare_step(part, b),
        State::Quoted(part) => quoted_step(part, b),
        State::Shut(part) => shut_step(part, b),
        State::Cr => cr_step(b),
        State::Line => opening_step(Part::Number, b),
        State::Dead => State::Dead,
    }
}

// Returns whether the text may end here: in the second field of a record, or after a break.
#[tactic(auto, unfolding(sheets::specs::InnerAutomaton::accepting))]
fn may_end(state: State) -> bool
    ensures answer { result ≡ accepting (state_of state) }
{
    matches!(
        state,
        State::Opening(Part::Name) | State::Bare(Part::Name) | State::Shut(Part::Name) | State::Line
    )
}

// Returns whether no sheet begins with what was read.
#[tactic(auto, unfolding(sheets::specs::InnerAutomaton::is_dead))]
fn is_dead(state: State) -> bool
    ensures answer { result ≡ is_dead (state_of state) }
{
    state == State::Dead
}

// Asks question 40: is the text one or more records of two fields? Returns that it is, or the offending place.
pub fn scan(text: &[u8]) -> Result<(), usize>
    ensures answer { form_place result ≡ cond (accepts text.now) none (some (place text.now)) }
{
    let mut state = State::Opening(Part::Number);
    for (i, b) in text.iter().enumerate() {
        state = step(state, *b);
        if is_dead(state) {
            return Err(i);
        }
    }
    if may_end(state) {
        Ok(())
    } else {
        Err(text.len())
    }
}
