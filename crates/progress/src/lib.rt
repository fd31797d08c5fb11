// What was noted of each file that the program `classes` has read, and which file is wanted next: `start` has no notes, and `wanted` returns the number of the
// file that is to be read, if there is one. The definitions of this crate are those of the whole program, from the folder to what is printed.

#![tactic(auto)]

ghost use Rattle.std.specs.Prelude.{◌≡◌, ◌<◌, List, ℕ, ⊤, MatchOption, replicate, unwrap_or};
ghost use Rattle.progress.specs.Progress as progress;
ghost use Rattle.progress.specs.Held.{progress_of, file_name};

// What comes next. `Read`: a new file is read. `Compare(n, j)`: file j is read again, to be compared with the new file's table, which has order n. `Stop`: no
// more files are read.
#[derive(Clone, Copy)]
pub enum Task {
    Read,
    Compare(usize, usize),
    Stop,
}

// What was noted of the first `count` files, and what comes next. For file k, place k - 1 of `orders` holds its order, and of `numbers` the lowest file of its
// class; for a refused file they hold 0 and the number of the question. Two arrays: the contract of `classification::step` says what stands in each.
#[derive(Clone, Copy)]
pub struct Classifier {
    pub count: usize,
    pub orders: [u8; 50],
    pub numbers: [u8; 50],
    pub task: Task,
}

// Returns the name of file k, such as `01.csv`, made from the last two digits of k.
#[tactic(auto, unfolding(crate::specs::Held::file_name))]
pub fn file_name(k: usize) -> [u8; 6]
    ensures name { result ≡ file_name k }
{
    [
        b'0' + (k / 10 % 10) as u8,
        b'0' + (k % 10) as u8,
        b'.',
        b'c',
        b's',
        b'v',
    ]
}

impl Classifier {
    // Returns the classifier that has read no file yet.
    #[tactic(auto, unfolding(crate::specs::Held::notes_from, semigroups::specs::Lists::elements, semigroups::specs::Lists::range))]
    pub fn start() -> Classifier
        ensures answer { (cells : List ℕ) → progress_of result cells ≡ progress.start }
        ensures orders { result.orders ≡ replicate 50 0 }
        ensures numbers { result.numbers ≡ replicate 50 0 }
    {
        Classifier {
            count: 0,
            orders: [0; 50],
            numbers: [0; 50],
            task: Task::Read,
        }
    }

    // Returns the number of the file that is to be read next, which is not 0, or none where no more are read.
    #[tactic(auto, using(crate::proofs::Wanted::wanted_new, crate::proofs::Wanted::wanted_full))]
    pub fn wanted(self) -> Option<usize>
        ensures answer { (cells : List ℕ) → unwrap_or result 0 ≡ progress.wanted (progress_of self cells) }
        ensures file { (cells : List ℕ) → progress.Sound (progress_of self cells) → MatchOption result ⊤ (λ k. 0 < k) }
    {
        match self.task {
            Task::Read if self.count < 50 => Some(self.count + 1),
            Task::Compare(_, j) => Some(j),
            Task::Read | Task::Stop => None,
        }
    }
}
