// Which files hold isomorphic tables: the program `classes`, from the bytes of its files to the bytes that it prints. It holds two tables at a time. `step`
// takes the bytes of the file that `progress` wants next, and `put` writes the whole output from what was noted of each file.

#![tactic(auto)]

ghost use Rattle.std.specs.Prelude.{◌≡◌, List, ℕ, ◌+◌, ◌*◌, ◌≤◌, ◌<◌, MatchOption, length, take, drop};
ghost use Rattle.std.proofs.Math.Option.{get_or};
ghost use Rattle.std.proofs.lemmas.List.Edits.{sets};
ghost use Rattle.semigroups.specs.Tables.{largest_order, Accepted};
ghost use Rattle.semigroups.specs.Calls.{overwritten};
ghost use Rattle.semigroups.specs.Results.{optional};
ghost use Rattle.rfc4180.specs.Records.{line_text, rows_text};
ghost use Rattle.rfc4180.specs.Calls.{cells_after};
ghost use Rattle.files.specs.Files.{file_refusal, room};
ghost use Rattle.progress.specs.Classes as classes;
ghost use Rattle.progress.specs.Output as output;
ghost use Rattle.progress.specs.Progress as progress;
ghost use Rattle.progress.specs.Held.{note_from, notes_from, notes_in, progress_of, opened_text, cells_then};
ghost use Rattle.classification.specs.InnerHeld.{total_text};

use files::{failed_question, load_then_check};
use kinds::Kind;
use lines::{put_break, put_field, put_fields, put_record};
use progress::{Classifier, Task};
use tables::limits::{CELLS, ORDER, SCRATCH};

// Returns whether an isomorphism exists between two accepted tables.
fn isomorphic(source: &[u8], m: usize, target: &[u8], n: usize) -> bool
    requires { Accepted m source.now × Accepted n target.now }
    ensures answer { result ≡ classes.isomorphic m source.now n target.now }
{
    let mut map = [0u8; ORDER];
    let mut scratch = [0u8; SCRATCH];
    kinds::find(
        Kind::Isomorphisms,
        false,
        source,
        m,
        target,
        n,
        &mut map[..m],
        &mut scratch,
    )
}

// Returns whether a file with these bytes is accepted and its table is isomorphic to that of order n with these cells. A table of another order is not
// compared.
fn holds_like(text: &[u8], n: usize, cells: &[u8]) -> bool
    requires { Accepted n cells.now }
    ensures answer { result ≡ classes.holds_like text.now n cells.now }
{
    let mut own = [0u8; CELLS];
    let verdict = load_then_check(text, &mut own);
    let Ok(m) = verdict else {
        return false;
    };
    if m != n {
        return false;
    }
    let size = m * m;
    isomorphic(&own[..size], m, cells, n)
}

// Returns whether a file with this note is in the class that file a names.
fn is_in(a: usize, order: u8, number: u8) -> bool
    ensures answer { result ≡ output.is_in a (note_from order number) }
{
    order != 0 && number as usize == a
}

// Returns whether file i, with this note, is the lowest of a class of tables of order n.
fn names_order(n: usize, i: usize, order: u8, number: u8) -> bool
    ensures answer { result ≡ progress.names_order n i (note_from order number) }
{
    order != 0 && order as usize == n && number as usize == i
}

// Returns the first file above j that is the lowest of a class of tables of order n.
fn next_class(classifier: &Classifier, n: usize, j: usize) -> Option<usize>
    requires few { (classifier.now.count ≤ 50) × (j ≤ classifier.now.count) }
    ensures answer { get_or (optional result) (classifier.now.count + 1) ≡ progress.next_class (notes_in classifier.now) n j }
    ensures within { MatchOption result Unit (λ i. i ≤ classifier.now.count) }
{
    for i in j + 1..classifier.count + 1 {
        if names_order(n, i, classifier.orders[i - 1], classifier.numbers[i - 1]) {
            return Some(i);
        }
    }
    None
}

// Returns how many members there are in the class that file a names.
fn members(classifier: &Classifier, a: usize) -> usize
    requires few { classifier.now.count ≤ 50 }
    ensures answer { result ≡ output.members (notes_in classifier.now) a }
    ensures most { result ≤ classifier.now.count }
{
    (1..classifier.count + 1)
        .filter(|k| is_in(a, classifier.orders[*k - 1], classifier.numbers[*k - 1]))
        .count()
}

// Writes the record of file k, which is accepted, at `at`. Returns the place after it.
fn put_class(out: &mut [u8], at: usize, k: usize, order: usize, lowest: usize) -> usize
    requires small { (k < 1000) × (order < 1000) × (lowest < 1000) }
    requires room { at + length (line_text (output.note_record k (classes.in_class order lowest))) ≤ length out.old }
    ensures answer { result ≡ at + length (line_text (output.note_record k (classes.in_class order lowest))) }
    ensures out { out.new ≡ sets out.old at (line_text (output.note_record k (classes.in_class order lowest))) }
{
    let mut place = put_fields(out, at, b"class", k, order);
    place = put_field(out, place, lowest);
    put_break(out, place)
}

// Writes the record of file k at `at`. `order` is its order, or 0 for a refused file, and `number` its class or the question. Returns the place after it.
fn put_note(out: &mut [u8], at: usize, k: usize, order: u8, number: u8) -> usize
    requires small { k < 1000 }
    requires room { at + length (line_text (output.note_record k (note_from order number))) ≤ length out.old }
    ensures answer { result ≡ at + length (line_text (output.note_record k (note_from order number))) }
    ensures out { out.new ≡ sets out.old at (line_text (output.note_record k (note_from order number))) }
{
    if order == 0 {
        return put_record(out, at, b"refused", k, number as usize);
    }
    put_class(out, at, k, order as usize, number as usize)
}

// Writes the records of the files to the start of `out`. Returns their length.
fn put_notes(out: &mut [u8], classifier: &Classifier) -> usize
    requires few { classifier.now.count ≤ 50 }
    requires room { 19 * classifier.now.count ≤ length out.old }
    ensures answer { result ≡ length (rows_text (output.note_records (notes_in classifier.now))) }
    ensures out { out.new ≡ sets out.old 0 (rows_text (output.note_records (notes_in classifier.now))) }
{
    let mut at = 0;
    for k in 1..classifier.count + 1 {
        at = put_note(
            out,
            at,
            k,
            classifier.orders[k - 1],
            classifier.numbers[k - 1],
        );
    }
    at
}

// Writes the total of the class that file a names, if it names one, at `at`. Returns the place after it.
fn put_total(out: &mut [u8], at: usize, classifier: &Classifier, a: usize) -> usize
    requires file { (classifier.now.count ≤ 50) × (1 ≤ a) × (a ≤ classifier.now.count) }
    requires room { at + length (total_text (notes_in classifier.now) a) ≤ length out.old }
    ensures answer { result ≡ at + length (total_text (notes_in classifier.now) a) }
    ensures out { out.new ≡ sets out.old at (total_text (notes_in classifier.now) a) }
{
    if is_in(a, classifier.orders[a - 1], classifier.numbers[a - 1]) {
        let total = members(classifier, a);
        return put_record(out, at, b"total", a, total);
    }
    at
}

// Writes the totals at `start`, in rising order of their lowest files. Returns the place after them.
fn put_totals(out: &mut [u8], start: usize, classifier: &Classifier) -> usize
    requires few { classifier.now.count ≤ 50 }
    requires room { start + 15 * classifier.now.count ≤ length out.old }
    ensures answer { result ≡ start + length (rows_text (output.total_records (notes_in classifier.now))) }
    ensures out { out.new ≡ sets out.old start (rows_text (output.total_records (notes_in classifier.now))) }
{
    let mut at = start;
    for a in 1..classifier.count + 1 {
        at = put_total(out, at, classifier, a);
    }
    at
}

// In the contracts from here to that of `step`, `answer` says which notes the classifier holds and what comes next; `orders` and `numbers` say what stands in
// its arrays after the notes.

// Returns the classifier with one more note; the next file is a new one.
fn noted(classifier: Classifier, order: usize, number: usize) -> Classifier
    requires { (classifier.count < 50) × (order < 256) × (number < 256) }
    ensures answer { (cells : List ℕ) → progress_of result cells ≡ progress.noted (notes_in classifier) (note_from order number) }
    ensures orders { drop result.count result.orders ≡ drop result.count classifier.orders }
    ensures numbers { drop result.count result.numbers ≡ drop result.count classifier.numbers }
{
    let at = classifier.count;
    let mut orders = classifier.orders;
    let mut numbers = classifier.numbers;
    orders[at] = order as u8;
    numbers[at] = number as u8;
    Classifier {
        count: at + 1,
        orders,
        numbers,
        task: Task::Read,
    }
}

// Returns the classifier with the same notes, which reads no more files.
fn stopped(classifier: Classifier) -> Classifier
    ensures answer { (cells : List ℕ) → progress_of result cells ≡ progress.progress (notes_in classifier) progress.over }
    ensures orders { drop result.count result.orders ≡ drop result.count classifier.orders }
    ensures numbers { drop result.count result.numbers ≡ drop result.count classifier.numbers }
{
    Classifier {
        task: Task::Stop,
        ..classifier
    }
}

// Returns the classifier after the comparison with class j failed: it goes on with the next class of tables of order n, or starts a new class.
fn onward(classifier: Classifier, n: usize, j: usize) -> Classifier
    requires { (classifier.count < 50) × (1 ≤ n) × (n ≤ largest_order) × (j ≤ classifier.count) }
    ensures answer { (cells : List ℕ) → progress_of result cells ≡ progress.onward (notes_in classifier) n (take (n * n) cells) j }
    ensures orders { drop result.count result.orders ≡ drop result.count classifier.orders }
    ensures numbers { drop result.count result.numbers ≡ drop result.count classifier.numbers }
{
    match next_class(&classifier, n, j) {
        Some(i) => Classifier {
            task: Task::Compare(n, i),
            ..classifier
        },
        None => noted(classifier, n, classifier.count + 1),
    }
}

// Loads a new file into `cells`. Returns the classifier after it: its table is compared next; or it has started a class of its own, since there is no class of
// its order; or its refusal is noted.
fn begun(classifier: Classifier, text: &[u8], cells: &mut [u8]) -> Classifier
    requires { (classifier.count < 50) × (length cells.old ≡ room) }
    ensures answer { progress_of result cells.new ≡ progress.begun (notes_in classifier) text.now (file_refusal text.now room) }
    ensures orders { drop result.count result.orders ≡ drop result.count classifier.orders }
    ensures numbers { drop result.count result.numbers ≡ drop result.count classifier.numbers }
    ensures cells { cells.new ≡ cells_after text.now cells.old }
{
    let verdict = load_then_check(text, cells);
    let Ok(n) = verdict else {
        return noted(classifier, 0, failed_question(verdict));
    };
    onward(classifier, n, 0)
}

// Returns the classifier after file j, read again, is compared with the new file's table of order n.
fn compared(classifier: Classifier, n: usize, j: usize, text: &[u8], cells: &[u8]) -> Classifier
    requires { (classifier.count < 50) × (j ≤ classifier.count) × (length cells.now ≡ room) × Accepted n (take (n * n) cells.now) }
    ensures answer { progress_of result cells.now ≡ progress.compared (notes_in classifier) n (take (n * n) cells.now) j (classes.holds_like text.now n (take (n * n) cells.now)) }
    ensures orders { drop result.count result.orders ≡ drop result.count classifier.orders }
    ensures numbers { drop result.count result.numbers ≡ drop result.count classifier.numbers }
{
    let size = n * n;
    if holds_like(text, n, &cells[..size]) {
        return noted(classifier, n, j);
    }
    onward(classifier, n, j)
}

// Takes the bytes of the file that was wanted, if it could be opened, and returns the classifier after it. The new file's table is kept in `cells`.
pub fn step(classifier: Classifier, opened: bool, text: &[u8], cells: &mut [u8]) -> Classifier
    requires room { length cells.old ≡ room }
    requires sound { progress.Sound (progress_of classifier cells.old) }
    requires wanted { progress.wanted (progress_of classifier cells.old) ≡ 0 → ⊥ }
    ensures answer { progress_of result cells.new ≡ progress.step (progress_of classifier cells.old) (opened_text opened text.now) }
    ensures orders { drop result.count result.orders ≡ drop result.count classifier.orders }
    ensures numbers { drop result.count result.numbers ≡ drop result.count classifier.numbers }
    ensures cells { cells.new ≡ cells_then classifier.task opened text.now cells.old }
{
    let task = classifier.task;
    match task {
        Task::Read => {
            if opened {
                return begun(classifier, text, cells);
            }
            stopped(classifier)
        }
        Task::Compare(n, j) => {
            if opened {
                return compared(classifier, n, j, text, &*cells);
            }
            onward(classifier, n, j)
        }
        Task::Stop => classifier,
    }
}

// Writes the whole output to the start of `out`, from what was noted of each file, once no more files are wanted. Returns its length.
pub fn put(classifier: Classifier, out: &mut [u8; 1700]) -> usize
    requires few { classifier.count ≤ 50 }
    requires over { (cells : List ℕ) → progress.wanted (progress_of classifier cells) ≡ 0 }
    ensures answer { result ≡ length (output.notes_text (notes_in classifier)) }
    ensures out { out.new ≡ overwritten (output.notes_text (notes_in classifier)) out.old }
{
    let at = put_notes(out, &classifier);
    put_totals(out, at, &classifier)
}
