// What the programs share that take arguments or read files: an argument as bytes, a file that an argument names, a piece of a file, and a failure that is said.
#![tactic(auto)]

ghost use Rattle.std.specs.Prelude.{◌≡◌, ◌≤◌, length, take, Some, IfSome, IsTrue};
ghost use Rattle.std.specs.Io.{StartsWith};
ghost use Rattle.std.specs.Io.KnownBytes.{Consumes, IsAtEnd, Keeps};

use std::env::{Env, FillError};
use std::fmt::Write;
use std::fs::Files;
use std::io::{Error, ErrorKind, Read, Seek, SeekFrom};
use std::{fmt, fs, io};

// Bytes of the longest argument that is read.
pub const ARGUMENT: usize = 4_096;

// How many arguments the program was started with, its own name among them.
pub fn argument_count(rt: &impl Env) -> usize {
    for i in 0..usize::MAX {
        if matches!(rt.arg(i, &mut []), Err(FillError::NotPresent)) {
            return i;
        }
    }
    usize::MAX
}

// Puts an argument at the front of a buffer, and answers its length, or 0 where it is missing or has no room.
pub fn argument(rt: &impl Env, i: usize, text: &mut [u8]) -> usize
    ensures { result ≤ length text.new }
{
    rt.arg(i, text).unwrap_or(0)
}

// Reads until a buffer is full, the input ends or a read fails, and answers how many bytes it put at the buffer's front.
pub fn read_full<R: Read>(reader: &mut R, piece: &mut [u8]) -> usize
    ensures bound { result ≤ length piece.new }
    ensures bytes { Consumes (R.remaining reader.old) (R.remaining reader.new) (take result piece.new) }
{
    let mut done = 0;
    // not a `for`: each read says how far it went
    while done < piece.len() {
        match reader.read(&mut piece[done..]) {
            Ok(0) => return done,
            Ok(n) => done += n,
            Err(_) => return done,
        }
    }
    done
}

// A file that is read a piece at a time, and room for a piece.
#[derive(Drop)]
pub struct Pieces<'a, R, const N: usize> {
    pub file: &'a mut R,
    pub room: [u8; N],
}

// The next piece of a file: the front of what it has left. One that does not fill the room is the last.
pub fn next_piece<'a, R: Read, const N: usize>(pieces: &'a mut Pieces<'_, R, N>) -> &'a [u8]
    ensures bound { length result.now ≤ N }
    ensures front { IfSome (R.remaining pieces.old.file.now) (λ xs. StartsWith xs result.now) }
{
    let n = read_full(pieces.file, &mut pieces.room);
    &pieces.room[..n]
}

// Whether nothing follows in a file: a read that failed before looks like an end.
pub fn is_over<R: Read>(reader: &mut R) -> bool
    ensures { IsTrue result → IsAtEnd (R.remaining reader.new) }
{
    let mut byte = [0u8; 1];
    matches!(reader.read(&mut byte), Ok(0))
}

// Back to a file's start, and whether it went there.
pub fn goes_back<F: Seek>(file: &mut F) -> bool
    ensures moves { IsTrue result → IfSome (F.stream_position file.old) (λ _. F.stream_position file.new ≡ Some 0) }
    ensures bytes { Keeps (F.stream_bytes file.old) (F.stream_bytes file.new) }
{
    matches!(file.seek(SeekFrom::Start(0)), Ok(0))
}

// Text that is formatted into a buffer; what does not fit is left out.
#[derive(Drop)]
struct Words {
    bytes: [u8; 256],
    len: usize,
}

impl Write for Words {
    fn write_str(&mut self, words: &str) -> fmt::Result {
        self.len = texts::put_bytes(words.as_bytes(), &mut self.bytes, self.len);
        Ok(())
    }
}

// Text up to the system's number of an error.
fn before_number(words: &str) -> &str {
    words
        .split_once(" (os error ")
        .map_or(words, |(front, _)| front)
}

// Says on standard error what failed and why, in the system's words.
fn say_failure(rt: &impl Eprint, what: &str, error: &Error) -> io::Result<()> {
    let mut words = Words {
        bytes: [0; 256],
        len: 0,
    };
    write!(words, "{error}")?;
    let said = str::from_utf8(texts::front(&words.bytes, words.len)).unwrap_or("");
    let why = before_number(said);
    eprintln!(rt; "{what}: {why}")
}

// Writes to standard output, and answers whether all was written; if not, what failed is said on standard error.
pub fn write_out(rt: &(impl Print + Eprint), what: &str, out: &[u8]) -> io::Result<bool> {
    match rt.write_all(out) {
        Ok(()) => Ok(true),
        Err(error) => {
            say_failure(rt, what, &error)?;
            Ok(false)
        }
    }
}

// A file's name is text here, as paths are.
fn name_in(bytes: &[u8]) -> io::Result<&str> {
    str::from_utf8(bytes).map_err(|_| Error::new(
        ErrorKind::InvalidFilename,
        "a file's name is not UTF-8",
    ))
}

// Opens the file that an argument names. Where it cannot be opened, that is said on standard error.
pub fn open_argument<R: Env + Files + Eprint>(rt: &R, i: usize) -> io::Result<Option<R::File>> {
    let mut text = [0u8; ARGUMENT];
    let n = argument(rt, i, &mut text);
    let name = name_in(&text[..n])?;
    match fs::open(rt, name) {
        Ok(file) => Ok(Some(file)),
        Err(error) => {
            say_failure(rt, name, &error)?;
            Ok(None)
        }
    }
}
