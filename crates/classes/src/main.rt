// Reads 01.csv, 02.csv and so on from the folder that it is run in, and prints which of them hold isomorphic tables, or why a file is refused. Crates
// `progress` and `classification` prove, from the bytes of the files, which file is read next and what is printed; this file only reads the files and writes
// the text.

#![tactic(auto)]

use progress::{Classifier, file_name};
use reading::read_opened;
use std::{fs, str};
use tables::limits::{CELLS, FILE};

// The descriptor of standard output.
const STDOUT: i32 = 1;

fn main(rt: HostRuntime) {
    let mut text = [0u8; FILE];
    let mut cells = [0u8; CELLS];
    let mut out = [0u8; 1700];
    let mut classifier = Classifier::start();
    while let Some(k) = classifier.wanted() {
        let name = file_name(k);
        // The name is ASCII, so it is always text.
        let path = str::from_utf8(&name).unwrap_or("");
        let read = read_opened(fs::open(&rt, path), &mut text);
        let length = read.unwrap_or(0);
        classifier = classification::step(classifier, read.is_some(), &text[..length], &mut cells);
    }
    let written = classification::put(classifier, &mut out);
    io::write_all(STDOUT, &out[..written]);
}
