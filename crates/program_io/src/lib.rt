// What the programs ask of the system: their arguments, files by the names that these give, and messages of what failed.
#![tactic(auto)]

pub mod output;

ghost use Rattle.std.specs.Prelude.{◌≡◌, ℕ, ◌<◌, ◌≤◌, IsTrue, Ok, Err, Some, None, IfSome, length};
ghost use Rattle.std.specs.Io.{ReadsAtMost, WritesAtMost};
ghost use Rattle.program_io.specs.Internal.Ending.{EndsBy, EndsUnwritten};

use std::env::{Env, FillError};
use std::fs::File;
use std::io::{Error, ErrorKind, Print};
use std::process::ExitCode;
use std::{io, str};

// The system's number of the error that an argument is none. This and the next are numbers, since by them std prints the system's words.
const INVALID_ARGUMENT: i32 = 22;

// And of the error that a name is too long.
const NAME_TOO_LONG: i32 = 36;

// The status of a program that nobody reads: what a shell has for one that the system's signal ended.
const UNREAD: u8 = 141;

// How many arguments there are, with the program's own name.
pub fn arg_count(rt: &impl Env) -> usize {
    // By index: std's iterator over the arguments asks for memory from the heap, so counting them could fail.
    for i in 0..usize::MAX {
        if let Err(FillError::NotPresent) = rt.arg(i, &mut []) {
            return i;
        }
    }
    usize::MAX
}

// The most bytes that a name has.
pub const LONGEST_NAME: usize = 4096;

// Puts an argument at the start of buf and answers its length, or why that can't be. One that is longer leaves its first bytes in buf.
pub fn arg(rt: &impl Env, i: usize, buf: &mut [u8]) -> io::Result<usize>
    ensures { WritesAtMost result buf.new }
{
    match rt.arg(i, buf) {
        Ok(n) => Ok(n),
        Err(FillError::TooLong) => Err(Error::from_raw_os_error(NAME_TOO_LONG)),
        Err(FillError::NotPresent) => Err(Error::from_raw_os_error(INVALID_ARGUMENT)),
    }
}

// A file's name as text, which it has to be.
fn text_of(name: &[u8]) -> io::Result<&str> {
    str::from_utf8(name).map_err(|_| Error::from(ErrorKind::InvalidFilename))
}

// Opens the file of this name for reading.
pub fn open_read(rt: &HostRuntime, name: &[u8]) -> io::Result<File> {
    File::open(rt, text_of(name)?)
}

// Opens the file of this name for writing: it is made anew, or emptied first.
pub fn open_overwrite(rt: &HostRuntime, name: &[u8]) -> io::Result<File> {
    File::create(rt, text_of(name)?)
}

// Writes words to standard error. Where they can't be written there is nobody left to tell.
pub fn tell(rt: &HostRuntime, words: &[u8]) {
    let _ = rt.stderr().write_all(words);
}

// The words of an error of the system's, without the number that stands behind them.
fn without_number(words: &str) -> &str {
    match words.rsplit_once(" (os error ") {
        Some((before, _)) => before,
        None => words,
    }
}

// Writes a line to standard error: what failed, as the caller names it, a colon and why.
pub fn fail(rt: &HostRuntime, what: &[u8], error: Error) {
    tell(rt, what);
    tell(rt, b": ");
    match format!(in rt.alloc(); "{error}") {
        Ok(words) => tell(rt, without_number(words.as_str()).as_bytes()),
        Err(_) => tell(rt, b"out of memory"),
    }
    tell(rt, b"\n");
}

// The status that a program ends with where output can't be written: 0, with a message under this name. But where nobody reads it the
// status alone tells of it.
pub fn unwritten(rt: &HostRuntime, what: &[u8], error: Error) -> ExitCode
    ensures by_error { EndsBy error result }
    ensures ends { EndsUnwritten result }
{
    if error.kind() == ErrorKind::BrokenPipe {
        return ExitCode::from(UNREAD);
    }
    fail(rt, what, error);
    ExitCode::SUCCESS
}

// Whether an argument starts with a dash, and is longer than `most` bytes: it can name no file then, as `--help`.
pub fn is_dashed(rt: &HostRuntime, i: usize, most: usize) -> bool
    ensures { IsTrue result → most < 4096 }
{
    let mut word = [0u8; LONGEST_NAME];
    match arg(rt, i, &mut word) {
        Ok(n) => base::byte_at(&word, 0) == b'-' && n > most,
        Err(_) => false,
    }
}

// How many bytes were read; none where that failed, with a message under this name.
fn or_tell(rt: &HostRuntime, what: &[u8], read: io::Result<usize>) -> Option<usize>
    ensures done { (n : ℕ) → read ≡ Ok n → result ≡ Some n }
    ensures failed { (e : _) → read ≡ Err e → result ≡ None }
{
    match read {
        Ok(n) => Some(n),
        Err(error) => {
            fail(rt, what, error);
            None
        }
    }
}

// Reads the file of this name until buf is full or the file ends, and answers how many bytes those are.
fn read_file(rt: &HostRuntime, name: &[u8], buf: &mut [u8]) -> io::Result<usize>
    ensures { ReadsAtMost result buf.new }
{
    let mut file = open_read(rt, name)?;
    run_stream::read_full(&mut file, buf)
}

// The same of what a name stands for: `-` is standard input.
fn read_name(rt: &HostRuntime, name: &[u8], buf: &mut [u8]) -> Option<usize>
    ensures { IfSome result (λ n. n ≤ length buf.new) }
{
    if base::byte_at(name, 0) == b'-' {
        let read = run_stream::read_full(&mut rt.stdin(), buf);
        return or_tell(rt, b"standard input", read);
    }
    let read = read_file(rt, name, buf);
    or_tell(rt, name, read)
}

// Reads what an argument names until buf is full or the input ends: `-` is standard input. It answers how many bytes those are, or none
// where it can't be read, with a message; then any bytes may stand in buf.
pub fn read_argument(rt: &HostRuntime, i: usize, buf: &mut [u8]) -> Option<usize>
    ensures { IfSome result (λ n. n ≤ length buf.new) }
{
    let mut name = [0u8; LONGEST_NAME];
    let n = or_tell(rt, b"the file's name", arg(rt, i, &mut name))?;
    read_name(rt, &name[..n], buf)
}
