// Name sheets: a record for each name, which holds its number and the name, as RFC 4180 text with quoted fields. In memory the names stand one after another
// in one buffer, and their lengths, a byte each, in another. `load` asks questions 40, 42, 41 and 27 of a text, `save` asks 42, 41 and 28; a refusal changes
// no byte. The definitions that the contracts cite, and the proof that loading and saving undo each other, are in the crate `sheets`.

#![tactic(auto)]

ghost use Rattle.std.specs.Prelude.{◌≡◌, ◌+◌, ◌≤◌, length, take, drop, replicate};
ghost use mathlib.Core.List.{map, flatten};
ghost use Rattle.std.proofs.lemmas.List.Edits.{sets};
ghost use Rattle.semigroups.specs.Tables.{largest_order};
ghost use Rattle.semigroups.specs.Calls.{overwritten};
ghost use Rattle.answers.specs.Answers.{numbered_says};
ghost use Rattle.sheets.specs.Grammar.{IsSheet, sheet_rows};
ghost use Rattle.sheets.specs.Readings.{Reading, rows_names};
ghost use Rattle.sheets.specs.Names.{is_name, is_number, needs_quotes, doubled, name_text, names_text, names_at};
ghost use Rattle.sheets.specs.Calls.{load_names_answer, names_after, lengths_after, save_names_answer, sheet_after};
ghost use Rattle.sheets.specs.InnerCursor.{bare_value, quoted_value, quoted_size, value_at, size_at};
ghost use Rattle.names.specs.InnerReading.{extended, HoldsValue, Judges, JudgesNames, Fits, Nameable};

use tables::No;
use tables::limits::ORDER;

// ---- fields

// The value of a field: its first 41 bytes, so that a value of more than 40 is noticed; and the place after the field. The bytes are a buffer and a size: they
// come one by one, in fixed memory.
#[derive(Clone, Copy)]
struct Value {
    bytes: [u8; 41],
    size: usize,
    end: usize,
}

impl Value {
    // Returns the value with no byte, of a field that ends at place 0.
    fn empty() -> Self
        ensures value { result ≡ record { bytes = replicate 41 0; size = 0; end = 0 } }
    {
        Value {
            bytes: [0u8; 41],
            size: 0,
            end: 0,
        }
    }

    // Returns the value with one more byte, or as it is if it has 41 already. The place after the field does not change.
    #[tactic(auto, unfolding(crate::specs::InnerReading::extended))]
    fn with(mut self, b: u8) -> Self
        ensures value { result ≡ extended self b }
    {
        if self.size < 41 {
            self.bytes[self.size] = b;
            self.size += 1;
        }
        self
    }

    // Returns the value with `end` as the place after its field.
    fn ending(self, end: usize) -> Self
        ensures value { result ≡ record { bytes = self.bytes; size = self.size; end = end } }
    {
        Value { end, ..self }
    }

    // Returns the bytes of the value.
    fn held(&self) -> &[u8]
        ensures value { result.now ≡ take self.now.size self.now.bytes }
    {
        &self.bytes[..self.size.min(41)]
    }
}

// Returns the value of the field with no quote marks around it that begins at `at`.
fn read_bare(text: &[u8], at: usize) -> Value
    requires { at ≤ length text.now }
    ensures value { HoldsValue (bare_value (drop at text.now)) result }
    ensures end { result.end ≡ at + length (bare_value (drop at text.now)) }
{
    let mut value = Value::empty();
    let field = &text[at..];
    for (i, b) in field.iter().enumerate() {
        if *b == 44 || *b == 13 {
            return value.ending(at + i);
        }
        value = value.with(*b);
    }
    value.ending(text.len())
}

// Returns the value of the field whose opening quote mark stands just before `at`.
fn read_quoted(text: &[u8], at: usize) -> Value
    requires { at ≤ length text.now }
    ensures value { HoldsValue (quoted_value (drop at text.now)) result }
    ensures end { result.end ≡ at + quoted_size (drop at text.now) }
{
    let mut value = Value::empty();
    let mut i = at;
    // A while: two quote marks are passed at once.
    while i < text.len() {
        if text[i] != 34 {
            value = value.with(text[i]);
            i += 1;
        } else if i + 1 < text.len() && text[i + 1] == 34 {
            value = value.with(34);
            i += 2;
        } else {
            return value.ending(i + 1);
        }
    }
    value.ending(i)
}

// Returns the value of the field that begins at `at`.
fn read_field(text: &[u8], at: usize) -> Value
    requires { at ≤ length text.now }
    ensures value { HoldsValue (value_at (drop at text.now)) result }
    ensures end { result.end ≡ at + size_at (drop at text.now) }
{
    if at < text.len() && text[at] == 34 {
        read_quoted(text, at + 1)
    } else {
        read_bare(text, at)
    }
}

// ---- names and numbers

// Returns whether k is at most 120 and these bytes are k in decimal, with no leading 0.
fn is_number(bytes: &[u8], k: usize) -> bool
    ensures answer { result ≡ is_number k bytes.now }
{
    if ORDER < k || bytes.is_empty() || 3 < bytes.len() || bytes[0] == 48 {
        return false;
    }
    let mut v = 0;
    for b in bytes {
        match *b {
            48..=57 => v = v * 10 + (*b - 48) as usize,
            _ => return false,
        }
    }
    v == k
}

// Returns whether these bytes are a name: 1 to 40 bytes, each hexadecimal 20 to 7E.
fn is_name(bytes: &[u8]) -> bool
    ensures answer { result ≡ is_name bytes.now }
{
    if bytes.is_empty() || 40 < bytes.len() {
        return false;
    }
    bytes.iter().all(|b| scanning::is_printable(*b))
}

// ---- loading

// Asks questions 42 and 41 of each record. Returns how many names there are and how many bytes they have, or the first question that fails.
fn judge_records(text: &[u8]) -> Result<(usize, usize), No>
    requires { IsSheet text.now }
    ensures answer { (p : IsSheet text.now) → Judges (sheet_rows p.sheet) result }
{
    let mut at = 0;
    let mut count = 0;
    let mut total = 0;
    // A while: a record ends where its second field does.
    while at < text.len() {
        let k = count + 1;
        let number = read_field(text, at);
        if !is_number(number.held(), k) {
            return Err(No::With(42, k));
        }
        let name = read_field(text, number.end + 1);
        if !is_name(name.held()) {
            return Err(No::With(41, k));
        }
        count = k;
        total += name.size;
        at = name.end + 2;
    }
    Ok((count, total))
}

// Writes the names of the records, one after another, to the start of `names`, and their lengths to the start of `lengths`.
fn write_names(text: &[u8], names: &mut [u8], lengths: &mut [u8])
    requires form { IsSheet text.now }
    requires fits { (p : IsSheet text.now) → Fits (sheet_rows p.sheet) (length names.old) (length lengths.old) }
    ensures names { (p : IsSheet text.now) → names.new ≡ overwritten (flatten (rows_names (sheet_rows p.sheet))) names.old }
    ensures lengths { (p : IsSheet text.now) → lengths.new ≡ overwritten (map length (rows_names (sheet_rows p.sheet))) lengths.old }
{
    let mut at = 0;
    let mut start = 0;
    let mut k = 0;
    // A while: a record ends where its second field does.
    while at < text.len() {
        let number = read_field(text, at);
        let name = read_field(text, number.end + 1);
        start = lines::put_bytes(names, start, name.held());
        lengths[k] = name.size as u8;
        k += 1;
        at = name.end + 2;
    }
}

// Loads the names on the sheet `text`: writes them one after another to the start of `names` and their lengths to the start of `lengths`, and answers how
// many there are; or answers the earliest question that fails, and writes nothing.
pub fn load(text: &[u8], names: &mut [u8], lengths: &mut [u8]) -> Result<usize, No>
    ensures answer { (w : Reading text.now) → numbered_says result ≡ load_names_answer w names.old lengths.old }
    ensures names { (w : Reading text.now) → names.new ≡ names_after w names.old lengths.old }
    ensures lengths { (w : Reading text.now) → lengths.new ≡ lengths_after w names.old lengths.old }
{
    if let Err(k) = scanning::scan(text) {
        return Err(No::With(40, k));
    }
    match judge_records(text) {
        Err(fault) => Err(fault),
        Ok((count, total)) => {
            if names.len() < total || lengths.len() < count {
                return Err(No::Bare(27));
            }
            write_names(text, names, lengths);
            Ok(count)
        }
    }
}

// ---- saving

// Returns whether a name holds a comma or a quote mark.
fn needs_quotes(name: &[u8]) -> bool
    ensures answer { result ≡ needs_quotes name.now }
{
    name.iter().any(|b| matches!(*b, 34 | 44))
}

// Returns the length of the text of a name, with its quote marks.
fn name_length(name: &[u8]) -> usize
    requires { length name.now ≤ 40 }
    ensures answer { result ≡ length (name_text name.now) }
{
    if !needs_quotes(name) {
        return name.len();
    }
    // A loop, which is quicker than to filter the quote marks: its body becomes an addition without a branch.
    let mut total = 2 + name.len();
    for b in name {
        if *b == 34 {
            total += 1;
        }
    }
    total
}

// Writes a name at `start`, with each quote mark doubled. Returns the place after it.
fn put_doubled(text: &mut [u8], start: usize, name: &[u8]) -> usize
    requires { start + length (doubled name.now) ≤ length text.old }
    ensures answer { result ≡ start + length (doubled name.now) }
    ensures text { text.new ≡ sets text.old start (doubled name.now) }
{
    let mut at = start;
    for b in name {
        text[at] = *b;
        at += 1;
        if *b == 34 {
            text[at] = 34;
            at += 1;
        }
    }
    at
}

// Writes a name at `start`, between quote marks if it needs them. Returns the place after it.
#[tactic(auto, using(sheets::proofs::Memory::unquoted, sheets::proofs::Memory::quoted_length))]
fn put_name(text: &mut [u8], start: usize, name: &[u8]) -> usize
    requires { start + length (name_text name.now) ≤ length text.old }
    ensures answer { result ≡ start + length (name_text name.now) }
    ensures text { text.new ≡ sets text.old start (name_text name.now) }
{
    if !needs_quotes(name) {
        return lines::put_bytes(text, start, name);
    }
    text[start] = 34;
    let at = put_doubled(text, start + 1, name);
    text[at] = 34;
    at + 1
}

// Asks question 41 of each name. Returns the length of the text of the names, or the first question that fails.
fn judge_names(names: &[u8], lengths: &[u8]) -> Result<usize, No>
    requires { length lengths.now ≤ largest_order }
    ensures answer { JudgesNames names.now lengths.now result }
{
    let mut start = 0;
    let mut total = 0;
    for (k, size) in lengths.iter().enumerate() {
        let size = *size as usize;
        if names.len() - start < size {
            return Err(No::With(41, k + 1));
        }
        let name = &names[start..start + size];
        if !is_name(name) {
            return Err(No::With(41, k + 1));
        }
        total += lines::digit_count(k + 1) + name_length(name) + 3;
        start += size;
    }
    Ok(total)
}

// Writes the records of the names to the start of `text`.
fn put_names(names: &[u8], lengths: &[u8], text: &mut [u8])
    requires names { Nameable names.now lengths.now }
    requires room { length (names_text (names_at names.now lengths.now)) ≤ length text.old }
    ensures text { text.new ≡ overwritten (names_text (names_at names.now lengths.now)) text.old }
{
    let mut start = 0;
    let mut at = 0;
    for (k, size) in lengths.iter().enumerate() {
        let end = start + *size as usize;
        at = lines::put_number(text, at, k + 1);
        text[at] = 44;
        at = put_name(text, at + 1, &names[start..end]);
        at = lines::put_break(text, at);
        start = end;
    }
}

// Saves names that stand one after another in `names` with these lengths: writes their sheet to the start of `text` and answers its length; or answers
// the earliest question that fails, and writes nothing.
pub fn save(names: &[u8], lengths: &[u8], text: &mut [u8]) -> Result<usize, No>
    ensures answer { numbered_says result ≡ save_names_answer names.now lengths.now text.old }
    ensures text { text.new ≡ sheet_after names.now lengths.now text.old }
{
    if lengths.is_empty() || ORDER < lengths.len() {
        return Err(No::Bare(42));
    }
    match judge_names(names, lengths) {
        Err(fault) => Err(fault),
        Ok(total) => {
            if text.len() < total {
                return Err(No::Bare(28));
            }
            put_names(names, lengths, text);
            Ok(total)
        }
    }
}
