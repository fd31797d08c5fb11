// A tally: how many of the compared answers agree, and how many differ.
ghost use Rattle.std.specs.Prelude.{◌≡◌, ◌+◌, ◌≤◌, length};
ghost use Rattle.std.proofs.lemmas.List.Edits.{sets};
ghost use Rattle.semigroups.specs.Calls.{overwritten};
ghost use Rattle.judging.specs.InnerTally.{empty, counted, decimal, tally_line};

use lines::put_bytes;

#[derive(Clone, Copy)]
pub struct Tally {
    pub agreeing: u64,
    pub differing: u64,
}

// Returns the tally before anything is compared.
pub fn start() -> Tally
    ensures answer { result ≡ empty }
{
    Tally {
        agreeing: 0,
        differing: 0,
    }
}

// Returns the tally after one more comparison. A count that has reached its largest value stays as it is.
#[tactic(auto, unfolding(crate::specs::InnerTally::up))]
pub fn counted(tally: Tally, same: bool) -> Tally
    ensures answer { result ≡ counted tally same }
{
    if same {
        Tally {
            agreeing: tally.agreeing.saturating_add(1),
            ..tally
        }
    } else {
        Tally {
            differing: tally.differing.saturating_add(1),
            ..tally
        }
    }
}

// ---- the line of a group

// Writes a number in decimal at `at`. Returns the place after it.
fn put_decimal(out: &mut [u8], at: usize, k: u64) -> usize
    requires room { at + length (decimal k) ≤ length out.old }
    ensures answer { result ≡ at + length (decimal k) }
    ensures out { out.new ≡ sets out.old at (decimal k) }
{
    if k < 10 {
        out[at] = (48 + k) as u8;
        return at + 1;
    }
    let place = put_decimal(out, at, k / 10);
    out[place] = (48 + k % 10) as u8;
    place + 1
}

// Writes the line of a group to the start of `out`. Returns its length.
pub fn put_line(out: &mut [u8; 100], group: &[u8], tally: Tally) -> usize
    requires short { length group.now ≤ 40 }
    ensures answer { result ≡ length (tally_line group.now tally) }
    ensures out { out.new ≡ overwritten (tally_line group.now tally) out.old }
{
    let mut at = put_bytes(out, 0, group);
    at = put_bytes(out, at, b": ");
    at = put_decimal(out, at, tally.agreeing);
    at = put_bytes(out, at, b" agree, ");
    at = put_decimal(out, at, tally.differing);
    put_bytes(out, at, b" differ\n")
}
