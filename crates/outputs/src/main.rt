// Prints the whole output of recue for files with given bytes: found, none, every refusal that either file can get, and texts at the limit of 57,720 bytes. The
// expected output is in the file stdout, worked out by hand from the rules. The text of 121 records with 121 fields, which is too long to be written here,
// comes from standard input.

#![tactic(auto)]

ghost use Rattle.std.specs.Prelude.{◌≡◌, [], ◌∷◌, length};
ghost use Rattle.output.specs.Program.{recue_output};

use tables::limits::OUTPUT;

// The descriptors of standard input and output.
const STDIN: i32 = 0;

const STDOUT: i32 = 1;

// Prints the output for two files with these bytes. Returns its length.
fn show(source: &[u8], target: &[u8]) -> usize
    ensures answer { result ≡ length (recue_output source.now target.now) }
{
    let mut out = [0u8; OUTPUT];
    let written = output::recue(source, target, &mut out);
    io::write_all(STDOUT, &out[..written]);
    written
}

// How long two outputs are.
#[derive(Clone, Copy)]
struct Lengths {
    first: usize,
    second: usize,
}

// Prints the output for this text as the source, then as the target of the accepted source `1`. Returns the length of each.
fn refused(text: &[u8]) -> Lengths
    ensures first { result.first ≡ length (recue_output text.now (49 ∷ 13 ∷ 10 ∷ [])) }
    ensures second { result.second ≡ length (recue_output (49 ∷ 13 ∷ 10 ∷ []) text.now) }
{
    let first = show(text, b"1\r\n");
    let second = show(b"1\r\n", text);
    Lengths { first, second }
}

fn main() {
    show(
        b"1,2\r\n2,1\r\n",
        b"1,1,4,4\r\n1,2,3,4\r\n1,3,2,4\r\n1,4,1,4\r\n",
    );
    show(
        b"1,1\r\n2,2\r\n",
        b"1,1,4,4\r\n1,2,3,4\r\n1,3,2,4\r\n1,4,1,4\r\n",
    );
    refused(b"");
    refused(b"1;\r\n");
    // Texts without the last line break; the second ends with a comma, so that its last field is empty.
    show(b"1,2\r\n2,1", b"1,1,4,4\r\n1,2,3,4\r\n1,3,2,4\r\n1,4,1,4");
    refused(b"1,2\r\n2,");
    refused(b"1234\r\n");
    refused(b"0\r\n");
    refused(b"121\r\n");
    refused(b"1,1\r\n");
    let mut wide = [0u8; 29403];
    let length = io::read_full(STDIN, &mut wide);
    refused(&wide[..length]);
    refused(b"2\r\n");
    refused(b"2,1\r\n1,1\r\n");
    show(b"0\r\n", b"121\r\n");
    let longest = [49u8; 57720];
    refused(&longest);
    let longer = [49u8; 57721];
    refused(&longer);
}
