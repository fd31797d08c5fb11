// Reads source.csv and target.csv from the folder that it is run in, and prints the first embedding of the first table in the second, or that there is none, or
// why a file is refused. Crate `output` proves what is printed, from the bytes of the files; this file only reads the files and writes the text.

#![tactic(auto)]

use reading::read_or_empty;
use std::fs;
use tables::limits::{FILE, OUTPUT};

// The descriptor of standard output.
const STDOUT: i32 = 1;

fn main(rt: HostRuntime) {
    let mut source = [0u8; FILE];
    let mut target = [0u8; FILE];
    let mut out = [0u8; OUTPUT];
    let source_length = read_or_empty(fs::open(&rt, "source.csv"), &mut source);
    let target_length = read_or_empty(fs::open(&rt, "target.csv"), &mut target);
    let written = output::recue(&source[..source_length], &target[..target_length], &mut out);
    io::write_all(STDOUT, &out[..written]);
}
