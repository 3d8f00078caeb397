// Writes a capture of a recording, a pcap file with a packet for each whole frame: capture FILE > CAPTURE. A second argument names the profile whose ticks are told as times, fsk or c8psk; without one it is fsk.
// The file is read twice, a piece at a time, first for refusal 21: then its number and the first bad tick are said on standard error, and nothing is written.
#![tactic(auto)]

ghost use Rattle.std.specs.Prelude.{◌≡◌, length};

use program_files::Pieces;
use recording_capture::Clock;
use std::env::Env;
use std::fs::Files;
use std::io;
use std::io::{Read, Seek};

// Bytes of a full piece.
const PIECE: usize = 4_096;

// Ticks of a full piece.
const TICKS: usize = 2_048;

// Room for the packets of a piece, 319 bytes a tick.
const ROOM: usize = 653_312;

// More pieces than any file has; a loop has to end.
const PIECES: usize = 281_474_976_710_655;

// In a function of its own, with its length said: where such an array is made beside the loops, the check runs out of stack.
fn packets_room() -> [u8; ROOM]
    ensures { 653312 ≡ length result }
{
    [0; ROOM]
}

fn say_use(rt: &impl Eprint) -> io::Result<()> {
    eprintln!(rt; "use: capture FILE [fsk | c8psk] > CAPTURE")
}

// A recording that is refused.
fn say_bad(rt: &impl Eprint, tick: u64) -> io::Result<()> {
    eprintln!(rt; "capture: 21: no recording has tick {tick}")
}

// The first bad tick of a piece, counted from the recording's start. It and `look` stand in frames too: `program_files`, on which both rest, knows nothing of recordings.
fn first_bad(before: usize, piece: &[u8]) -> Option<u64> {
    recording_lines::first_bad(piece).map(|t| (before as u64).wrapping_add(t as u64))
}

// The first pass: the recording's first bad tick.
fn look<R: Read>(recording: &mut Pieces<R, PIECE>) -> Option<u64> {
    for done in 0..PIECES {
        let piece = program_files::next_piece(recording);
        let bad = first_bad(TICKS * done, piece);
        if bad.is_some() || piece.len() < PIECE {
            return bad;
        }
    }
    None
}

fn write_header(rt: &(impl Print + Eprint), out: &mut [u8]) -> io::Result<bool> {
    let n = recording_capture::put_file_header(out, 0);
    program_files::write_out(rt, "capture: standard output", texts::front(out, n))
}

// The second pass: the packets, with what is kept from piece to piece, up to a piece that is not full. It answers whether they were all written.
fn write_packets<R: Read>(
    rt: &(impl Print + Eprint),
    clock: Clock,
    recording: &mut Pieces<R, PIECE>,
    out: &mut [u8],
) -> io::Result<bool> {
    let mut bytes = [0u8; 255];
    let mut frame = [0u8; 267];
    let mut kept = recording_capture::start(clock);
    for done in 0..PIECES {
        let piece = program_files::next_piece(recording);
        if let Some(tick) = first_bad(TICKS * done, piece) {
            say_bad(rt, tick)?;
            return Ok(false);
        }
        let captured = recording_capture::packets(kept, piece, &mut bytes, &mut frame, out);
        kept = captured.progress;
        let packets = texts::front(out, captured.at);
        if !program_files::write_out(rt, "capture: standard output", packets)? {
            return Ok(false);
        }
        if piece.len() < PIECE {
            return Ok(true);
        }
    }
    Ok(true)
}

// Both passes.
fn capture_file<R: Read + Seek>(
    rt: &(impl Print + Eprint),
    clock: Clock,
    file: &mut R,
) -> io::Result<()> {
    // Made before the passes: where it is made between them, it is cleared twice.
    let mut out = packets_room();
    let mut recording = Pieces {
        file,
        room: [0; PIECE],
    };
    if let Some(tick) = look(&mut recording) {
        return say_bad(rt, tick);
    }
    if !program_files::is_over(recording.file) {
        return eprintln!(rt; "capture: the recording cannot be read to its end");
    }
    if !program_files::goes_back(recording.file) {
        return eprintln!(rt; "capture: the recording is no file that can be read twice");
    }
    if write_header(rt, &mut out)?
        && write_packets(rt, clock, &mut recording, &mut out)?
        && program_files::is_over(recording.file)
    {
        return Ok(());
    }
    eprintln!(rt; "capture: what was written is not the whole capture")
}

// The file that the first argument names.
fn capture_named(rt: &(impl Env + Files + Print + Eprint), clock: Clock) -> io::Result<()> {
    match program_files::open_argument(rt, 1)? {
        Some(mut file) => capture_file(rt, clock, &mut file),
        None => Ok(()),
    }
}

// With the profile that the second argument names.
fn capture_clocked(rt: &(impl Env + Files + Print + Eprint)) -> io::Result<()> {
    let mut word = [0u8; program_files::ARGUMENT];
    let n = program_files::argument(rt, 2, &mut word);
    match &word[..n] {
        b"fsk" => capture_named(rt, Clock::Fsk),
        b"c8psk" => capture_named(rt, Clock::C8psk),
        _ => say_use(rt),
    }
}

fn main(rt: HostRuntime) -> io::Result<()> {
    match program_files::argument_count(&rt) {
        2 => capture_named(&rt, Clock::Fsk),
        3 => capture_clocked(&rt),
        _ => say_use(&rt),
    }
}
