// Reading a file that a program has tried to open. The contract does not say which bytes the system hands over, only how many, and when there are none.

#![tactic(auto)]

ghost use Rattle.std.specs.Prelude.{◌≡◌, false, ◌<◌, length, is_some, is_ok, IsErr, unwrap_or};
ghost use Rattle.io.specs.Counts.{IsPrefixLen};
ghost use Rattle.rfc4180.specs.Questions.{longest_text};
ghost use Rattle.reading.specs.InnerOpened.{is_open};

use std::fs::File;
use std::io::Error;
use std::os::fd::AsRawFd;

// Reads the file with this descriptor into `text`. Returns how many bytes were read, or none if it was not opened, which it was unless the descriptor is
// negative; if reading fails, those read until then.
pub fn read_file(fd: i32, text: &mut [u8]) -> Option<usize>
    requires room { longest_text < length text.old }
    ensures opened { is_some result ≡ is_open fd }
    ensures count { IsPrefixLen (unwrap_or result 0) text.new }
    ensures size { length text.new ≡ length text.old }
    ensures unopened { is_open fd ≡ false → (result ≡ None) × (text.new ≡ text.old) }
{
    if fd < 0 {
        return None;
    }
    Some(io::read_full(fd, text))
}

// Reads a file that a program has tried to open into `text` and closes it. Returns how many bytes were read, or none if it was not opened.
pub fn read_opened(file: Result<File, Error>, text: &mut [u8]) -> Option<usize>
    requires room { longest_text < length text.old }
    ensures opened { is_some result ≡ is_ok file }
    ensures count { IsPrefixLen (unwrap_or result 0) text.new }
    ensures size { length text.new ≡ length text.old }
    ensures unopened { IsErr file → (result ≡ None) × (text.new ≡ text.old) }
{
    let Ok(opened) = file else {
        return read_file(-1, text);
    };
    Some(read_file(opened.as_raw_fd(), text).unwrap_or(0))
}

// Reads a file that a program has tried to open into `text` and closes it. Returns how many bytes were read; a file that was not opened counts as empty.
pub fn read_or_empty(file: Result<File, Error>, text: &mut [u8]) -> usize
    requires room { longest_text < length text.old }
    ensures count { IsPrefixLen result text.new }
    ensures size { length text.new ≡ length text.old }
    ensures unopened { IsErr file → (result ≡ 0) × (text.new ≡ text.old) }
{
    read_opened(file, text).unwrap_or(0)
}
