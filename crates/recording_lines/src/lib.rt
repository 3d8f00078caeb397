// What the program `frames` prints of a recording, piece by piece: a line for each frame and break, and the first bad tick.
#![tactic(auto, using(base::proofs::Choices::choices))]

ghost use Rattle.std.specs.Prelude.{◌≡◌, ◌/◌};
ghost use Rattle.line.specs.Reader.{ReaderTakeIs};
ghost use Rattle.texts.specs.Digits.{decimal};
ghost use Rattle.texts.specs.Put.{PutIs};
ghost use Rattle.line.specs.Heard.{heard_of};
ghost use Rattle.recording.specs.Form.{ticks_of, tick_refused};
ghost use Rattle.player_listing.specs.Text.{word};
ghost use Rattle.recording_lines.specs.Lines.{ticks_text, broken_line, damaged_line, fields_text, whole_line, line_by, is_idle, first_of, next_tick, start_of};
ghost use Rattle.recording_lines.specs.Bad.{first_bad};
ghost use Rattle.recording_lines.specs.Promises.{TickIs, LinesAre};

use frame::Header;
use line::{Event, Place, Receiver, Taken, Whole};
use texts::{put_byte, put_bytes, put_decimal};

// What is kept from piece to piece, beside the data of the frame being heard: the tick reader, the tick that comes next, and the first tick of the frame that the reader is in.
#[derive(Clone, Copy)]
pub struct Progress {
    pub receiver: Receiver,
    pub tick: u64,
    pub first: u64,
}

// What is kept after some ticks, and the place after their lines in the output.
#[derive(Clone, Copy)]
pub struct Printed {
    pub progress: Progress,
    pub at: usize,
}

// Before the first tick.
#[tactic(auto, using(crate::proofs::Printing::started))]
pub fn start() -> Progress
    ensures { result ≡ start_of }
{
    Progress {
        receiver: line_reader::passing_reader(),
        tick: 0,
        first: 0,
    }
}

// A number, with a space after it.
fn put_word(n: u64, out: &mut [u8], at: usize) -> usize
    ensures { PutIs (word (decimal n)) out.old at result out.new }
{
    let at = put_decimal(n, out, at);
    put_byte(b' ', out, at)
}

// The first and the last tick.
fn put_ticks(first: u64, last: u64, out: &mut [u8], at: usize) -> usize
    ensures { PutIs (ticks_text first last) out.old at result out.new }
{
    let at = put_word(first, out, at);
    put_word(last, out, at)
}

fn put_broken(first: u64, last: u64, out: &mut [u8], at: usize) -> usize
    ensures { PutIs (broken_line first last) out.old at result out.new }
{
    let at = put_ticks(first, last, out, at);
    put_bytes(b"broken\n", out, at)
}

fn put_damaged(first: u64, last: u64, out: &mut [u8], at: usize) -> usize
    ensures { PutIs (damaged_line first last) out.old at result out.new }
{
    let at = put_ticks(first, last, out, at);
    put_bytes(b"damaged\n", out, at)
}

// Type, master, address, command and byte count.
fn put_fields(header: Header, count: u8, out: &mut [u8], at: usize) -> usize
    ensures { PutIs (fields_text header count) out.old at result out.new }
{
    let at = player_listing::put_type_word(header.kind, out, at);
    let at = player_listing::put_master_word(header.primary, out, at);
    let at = put_word(header.address, out, at);
    let at = put_word(header.command as u64, out, at);
    put_decimal(count as u64, out, at)
}

fn put_whole(first: u64, last: u64, w: Whole, bytes: &[u8], out: &mut [u8], at: usize) -> usize
    ensures { PutIs (whole_line first last w bytes.now) out.old at result out.new }
{
    let at = put_ticks(first, last, out, at);
    let at = put_bytes(b"whole ", out, at);
    let at = put_fields(w.header, w.count, out, at);
    let at = texts::put_all_spaced(texts::front(bytes, w.count as usize), out, at);
    put_byte(b'\n', out, at)
}

// The line of a tick, by what the reader tells in it.
#[tactic(auto, using(crate::proofs::Printing::put_events))]
fn put_event(first: u64, last: u64, event: Event, bytes: &[u8], out: &mut [u8], at: usize) -> usize
    ensures { PutIs (line_by first last event bytes.now) out.old at result out.new }
{
    match event {
        Event::Nothing => at,
        Event::PassedOver if last == 0 => put_broken(first, last, out, at),
        Event::PassedOver => at,
        Event::Broken => put_broken(first, last, out, at),
        Event::Frame(w) => put_whole(first, last, w, bytes, out, at),
        Event::Damaged(_, _) => put_damaged(first, last, out, at),
    }
}

fn is_idle(place: Place) -> bool
    ensures { result ≡ is_idle place }
{
    place == Place::Idle
}

// The first tick of the frame that the reader is in, or of one that begins now.
fn first_of(p: Progress) -> u64
    ensures { result ≡ first_of p }
{
    if is_idle(p.receiver.place) {
        p.tick
    } else {
        p.first
    }
}

fn next_tick(t: u64) -> u64
    ensures { result ≡ next_tick t }
{
    t.saturating_add(1)
}

// A tick of the reader, made from the two bytes of a recording.
#[tactic(auto, using(crate::proofs::Printing::hears))]
fn hear(r: Receiver, first: u8, c: u8, bytes: &mut [u8; 255]) -> Taken
    ensures { ReaderTakeIs r (heard_of (first / 32) c) bytes.old result bytes.new }
{
    line_reader::take(r, line::heard_of(first / 32, c), bytes)
}

// A tick of the recording: its line from a place on.
#[tactic(auto, using(crate::proofs::Printing::ticked))]
fn tick(p: Progress, first: u8, c: u8, bytes: &mut [u8; 255], out: &mut [u8], at: usize) -> Printed
    ensures { TickIs p (heard_of (first / 32) c) bytes.old bytes.new out.old at result out.new }
{
    let begun = first_of(p);
    let taken = hear(p.receiver, first, c, bytes);
    Printed {
        progress: Progress {
            // Field by field: copied as a block, the reader stays in memory, and each tick takes longer.
            receiver: line_reader::copy_receiver(taken.receiver),
            tick: next_tick(p.tick),
            first: begun,
        },
        at: put_event(begun, p.tick, taken.event, bytes, out, at),
    }
}

// The lines of a piece of a recording, at the front of the output, and what is kept after it. An odd last byte is no tick.
#[tactic(auto, using(crate::proofs::Printing::printings))]
pub fn lines(p: Progress, piece: &[u8], bytes: &mut [u8; 255], out: &mut [u8]) -> Printed
    ensures { LinesAre p (ticks_of piece.now) bytes.old bytes.new out.old result out.new }
{
    let mut printed = Printed { progress: p, at: 0 };
    for t in 0..piece.len() / 2 {
        printed = tick(
            printed.progress,
            piece[2 * t],
            piece[2 * t + 1],
            bytes,
            out,
            printed.at,
        );
    }
    printed
}

// Whether no recording can have a tick of these two bytes.
fn is_refused(first: u8, c: u8) -> bool
    ensures { result ≡ tick_refused first c }
{
    // One after the other: as one condition it looks at both bytes of each tick.
    if first % 32 != 0 || 4 < first / 32 {
        true
    } else if first / 32 == 0 {
        c != 0
    } else {
        false
    }
}

// The first bad tick.
#[tactic(auto, using(crate::proofs::Bad::bads))]
pub fn first_bad(recording: &[u8]) -> Option<usize>
    ensures { result ≡ first_bad 0 recording.now }
{
    let ticks = recording.len() / 2;
    for t in 0..ticks {
        if is_refused(recording[2 * t], recording[2 * t + 1]) {
            return Some(t);
        }
    }
    if recording.len() % 2 == 1 {
        Some(ticks)
    } else {
        None
    }
}
