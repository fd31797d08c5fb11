// Runs the cases of RULES 23.4, which are only run and not proved, and the thirteen worked ones again. They go through the compiled functions of the library,
// and a second search, written separately, answers them too. Each group prints how many answers agree and how many differ.

#![tactic(auto)]

mod limits;
mod printed;
mod worked;

ghost use Rattle.std.specs.Prelude.{◌≡◌, ◌≤◌, length};
ghost use Rattle.judging.specs.InnerTally.{tally_line};

use comparisons::small;
use judging::tally::{Tally, put_line};

// The descriptor of standard output.
const STDOUT: i32 = 1;

// Prints the line of a group. Returns its length.
fn print(group: &[u8], tally: Tally) -> usize
    requires short { length group.now ≤ 40 }
    ensures answer { result ≡ length (tally_line group.now tally) }
{
    let mut out = [0u8; 100];
    let written = put_line(&mut out, group, tally);
    io::write_all(STDOUT, &out[..written]);
    written
}

fn main() {
    print(b"worked cases 1 to 3", worked::tables());
    print(b"worked cases 4 and 5", worked::elements());
    print(b"worked cases 6 to 13", worked::maps());
    print(
        b"worked cases 6 to 9 and 13, as printed",
        printed::embeddings(),
    );
    print(
        b"worked cases 10 to 12, as printed",
        printed::isomorphisms(),
    );
    print(b"every table of order 1", small::all_tables(1));
    print(b"every table of order 2", small::all_tables(2));
    print(b"every table of order 3", small::all_tables(3));
    print(b"every map from order 1 to order 1", small::all_maps(1, 1));
    print(b"every map from order 1 to order 2", small::all_maps(1, 2));
    print(b"every map from order 1 to order 3", small::all_maps(1, 3));
    print(b"every map from order 2 to order 1", small::all_maps(2, 1));
    print(b"every map from order 2 to order 2", small::all_maps(2, 2));
    print(b"every map from order 2 to order 3", small::all_maps(2, 3));
    print(b"every map from order 3 to order 1", small::all_maps(3, 1));
    print(b"every map from order 3 to order 2", small::all_maps(3, 2));
    print(b"every map from order 3 to order 3", small::all_maps(3, 3));
    print(b"orders 120 and 121", limits::orders());
    print(b"degrees 1 to 4", limits::degrees());
    print(b"scratch of 1 and 0 bytes", limits::scratch());
    print(b"fields 120, 121, 0 and 0001", limits::fields());
    print(b"mat5 in the table of degree 3", limits::large_target());
}
