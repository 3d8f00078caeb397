// Prints the frames and breaks of a recording: frames FILE. A line has the first and the last tick, and whole, damaged or broken; for a whole frame there follow type, master, address, command, byte count and data in hexadecimal.
// The file is read twice, a piece at a time, first for refusal 21: if it is refused, its number and the first bad tick are the only line.
#![tactic(auto)]

ghost use Rattle.std.specs.Prelude.{◌≡◌, length};

use program_files::Pieces;
use std::env::Env;
use std::fs::Files;
use std::io;
use std::io::{Read, Seek};

// Bytes of a full piece.
const PIECE: usize = 4_096;

// Ticks of a full piece.
const TICKS: usize = 2_048;

// Room for the lines of a piece, 900 bytes a tick.
const ROOM: usize = 1_843_200;

// More pieces than any file has; a loop has to end.
const PIECES: usize = 281_474_976_710_655;

// In a function of its own, with its length said: where the array is made beside the loops, the check runs out of stack.
fn lines_room() -> [u8; ROOM]
    ensures { 1843200 ≡ length result }
{
    [0; ROOM]
}

// The only line of a recording that is refused.
fn print_bad(rt: &impl Print, tick: u64) -> io::Result<()> {
    println!(rt; "21 {tick}")
}

// The first bad tick of a piece, counted from the recording's start. It and `look` stand in capture too: `program_files`, on which both rest, knows nothing of recordings.
fn first_bad(before: usize, piece: &[u8]) -> Option<u64> {
    recording_lines::first_bad(piece).map(|t| (before as u64).wrapping_add(t as u64))
}

// The first pass: the recording's first bad tick.
fn look<R: Read>(recording: &mut Pieces<R, PIECE>) -> Option<u64> {
    for done in 0..PIECES {
        let piece = program_files::next_piece(recording);
        let bad = first_bad(TICKS * done, piece);
        if bad.is_some() || piece.len() < PIECE {
            return bad;
        }
    }
    None
}

// The second pass: the lines, with what is kept from piece to piece, up to a piece that is not full. Returns whether they were all written.
fn print<R: Read>(
    rt: &(impl Print + Eprint),
    recording: &mut Pieces<R, PIECE>,
    out: &mut [u8],
) -> io::Result<bool> {
    let mut bytes = [0u8; 255];
    let mut kept = recording_lines::start();
    for done in 0..PIECES {
        let piece = program_files::next_piece(recording);
        if let Some(tick) = first_bad(TICKS * done, piece) {
            print_bad(rt, tick)?;
            return Ok(false);
        }
        let printed = recording_lines::lines(kept, piece, &mut bytes, out);
        kept = printed.progress;
        let lines = texts::front(out, printed.at);
        if !program_files::write_out(rt, "frames: standard output", lines)? {
            return Ok(false);
        }
        if piece.len() < PIECE {
            return Ok(true);
        }
    }
    Ok(true)
}

fn say_unread(rt: &impl Eprint) -> io::Result<()> {
    eprintln!(rt; "frames: the recording cannot be read to its end")
}

// Both passes.
fn list_file<R: Read + Seek>(rt: &(impl Print + Eprint), file: &mut R) -> io::Result<()> {
    // Made before the passes: where it is made between them, it is cleared twice.
    let mut out = lines_room();
    let mut recording = Pieces {
        file,
        room: [0; PIECE],
    };
    if let Some(tick) = look(&mut recording) {
        return print_bad(rt, tick);
    }
    if !program_files::is_over(recording.file) {
        return say_unread(rt);
    }
    if !program_files::goes_back(recording.file) {
        return eprintln!(rt; "frames: the recording is no file that can be read twice");
    }
    if print(rt, &mut recording, &mut out)? && !program_files::is_over(recording.file) {
        return say_unread(rt);
    }
    Ok(())
}

// The file that the argument names.
fn list_named(rt: &(impl Env + Files + Print + Eprint)) -> io::Result<()> {
    match program_files::open_argument(rt, 1)? {
        Some(mut file) => list_file(rt, &mut file),
        None => Ok(()),
    }
}

fn main(rt: HostRuntime) -> io::Result<()> {
    if program_files::argument_count(&rt) == 2 {
        return list_named(&rt);
    }
    eprintln!(rt; "use: frames FILE")
}
