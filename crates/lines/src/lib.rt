// The pieces of RFC 4180 lines, each written at a given place of a lent buffer: bytes, a decimal number, a field after a comma, a line break, a record of a
// word and two numbers. Each function returns the place after what it wrote, and changes no other byte. `digit_count` returns how many digits a number has.

#![tactic(auto)]

ghost use Rattle.std.specs.Prelude.{◌≡◌, ◌∷◌, [], ◌+◌, ◌≤◌, ◌<◌, length};
ghost use Rattle.std.proofs.lemmas.List.Edits.{sets};
ghost use Rattle.rfc4180.specs.Decimals.{numeral};
ghost use Rattle.rfc4180.specs.Records.{record_text, line_text};

// Returns how many digits k has in decimal.
pub fn digit_count(k: usize) -> usize
    requires { k < 1000 }
    ensures answer { result ≡ length (numeral k) }
{
    if k < 10 {
        return 1;
    }
    if k < 100 {
        return 2;
    }
    3
}

// Writes `bytes` at `at`. Returns the place after them.
pub fn put_bytes(out: &mut [u8], at: usize, bytes: &[u8]) -> usize
    requires room { at + length bytes.now ≤ length out.old }
    ensures answer { result ≡ at + length bytes.now }
    ensures out { out.new ≡ sets out.old at bytes.now }
{
    // A loop, since a copy of slices that may overlap needs a function of the C library.
    for i in 0..bytes.len() {
        out[at + i] = bytes[i];
    }
    at + bytes.len()
}

// Writes x in decimal at `at`. Returns the place after it.
pub fn put_number(out: &mut [u8], at: usize, x: usize) -> usize
    requires small { x < 1000 }
    requires room { at + length (numeral x) ≤ length out.old }
    ensures answer { result ≡ at + length (numeral x) }
    ensures out { out.new ≡ sets out.old at (numeral x) }
{
    if x < 10 {
        out[at] = (48 + x) as u8;
        return at + 1;
    }
    if x < 100 {
        out[at] = (48 + x / 10) as u8;
        out[at + 1] = (48 + x % 10) as u8;
        return at + 2;
    }
    out[at] = (48 + x / 100) as u8;
    out[at + 1] = (48 + x / 10 % 10) as u8;
    out[at + 2] = (48 + x % 10) as u8;
    at + 3
}

// Writes a comma and x in decimal at `at`. Returns the place after them.
pub fn put_field(out: &mut [u8], at: usize, x: usize) -> usize
    requires small { x < 1000 }
    requires room { at + 1 + length (numeral x) ≤ length out.old }
    ensures answer { result ≡ at + length (44 ∷ numeral x) }
    ensures out { out.new ≡ sets out.old at (44 ∷ numeral x) }
{
    out[at] = 44;
    put_number(out, at + 1, x)
}

// Writes a line break, CR LF, at `at`. Returns the place after it.
pub fn put_break(out: &mut [u8], at: usize) -> usize
    requires room { at + 2 ≤ length out.old }
    ensures answer { result ≡ at + 2 }
    ensures out { out.new ≡ sets out.old at (13 ∷ 10 ∷ []) }
{
    out[at] = 13;
    out[at + 1] = 10;
    at + 2
}

// Writes a word and two numbers as fields, without a line break, at `at`. Returns the place after them.
pub fn put_fields(out: &mut [u8], at: usize, word: &[u8], a: usize, b: usize) -> usize
    requires small { (a < 1000) × (b < 1000) }
    requires room { at + length (record_text (word.now ∷ numeral a ∷ numeral b ∷ [])) ≤ length out.old }
    ensures answer { result ≡ at + length (record_text (word.now ∷ numeral a ∷ numeral b ∷ [])) }
    ensures out { out.new ≡ sets out.old at (record_text (word.now ∷ numeral a ∷ numeral b ∷ [])) }
{
    let mut place = put_bytes(out, at, word);
    place = put_field(out, place, a);
    put_field(out, place, b)
}

// Writes the record of a word and two numbers at `at`. Returns the place after it.
pub fn put_record(out: &mut [u8], at: usize, word: &[u8], a: usize, b: usize) -> usize
    requires small { (a < 1000) × (b < 1000) }
    requires room { at + length (line_text (word.now ∷ numeral a ∷ numeral b ∷ [])) ≤ length out.old }
    ensures answer { result ≡ at + length (line_text (word.now ∷ numeral a ∷ numeral b ∷ [])) }
    ensures out { out.new ≡ sets out.old at (line_text (word.now ∷ numeral a ∷ numeral b ∷ [])) }
{
    let place = put_fields(out, at, word, a, b);
    put_break(out, place)
}
