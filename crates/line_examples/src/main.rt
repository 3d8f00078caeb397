// Feeds recorded ticks to the tick reader, and prints each tick in which it tells something.
#![tactic(auto)]

use example_texts::{print_line, put_header};
use line::{Event, FrameDamage, Whole};
use std::io;
use texts::{bit, put_all_spaced, put_bytes, put_field};

fn put_fields(w: Whole, out: &mut [u8], at: usize) -> usize {
    let mut place = put_header(w.header, out, at);
    place = put_field(b" expansion ", u64::from(w.expansion), out, place);
    place = put_field(b" command ", u64::from(w.header.command), out, place);
    put_field(b" count ", u64::from(w.count), out, place)
}

// A frame, with the data that are the first bytes of the reader's buffer.
fn put_frame(w: Whole, bytes: &[u8; 255], out: &mut [u8], at: usize) -> usize {
    let mut place = put_fields(w, out, at);
    place = put_bytes(b" data", out, place);
    put_all_spaced(texts::front(bytes, w.count as usize), out, place)
}

fn put_damage(m: FrameDamage, out: &mut [u8], at: usize) -> usize {
    let mut place = put_field(b" harm parity ", bit(m.parity), out, at);
    place = put_field(b" overrun ", bit(m.overrun), out, place);
    place = put_field(b" framing ", bit(m.framing), out, place);
    place = put_field(b" check ", bit(m.check), out, place);
    put_field(b" address ", bit(m.address), out, place)
}

// What a line begins with.
fn put_told(tick: usize, what: &[u8], out: &mut [u8]) -> usize {
    let mut place = put_field(b"  tick ", tick as u64, out, 0);
    place = put_bytes(b": ", out, place);
    put_bytes(what, out, place)
}

// A line for what the reader tells in a tick.
fn show_event(rt: &impl Print, tick: usize, event: Event, bytes: &[u8; 255]) -> io::Result<()> {
    let mut out = [0u8; 4096];
    let place = match event {
        Event::Nothing => return Ok(()),
        Event::PassedOver => put_told(tick, b"passed over", &mut out),
        Event::Broken => put_told(tick, b"broken", &mut out),
        Event::Frame(w) => {
            let place = put_told(tick, b"whole", &mut out);
            put_frame(w, bytes, &mut out, place)
        }
        Event::Damaged(w, m) => {
            let mut place = put_told(tick, b"damaged", &mut out);
            place = put_frame(w, bytes, &mut out, place);
            put_damage(m, &mut out, place)
        }
    };
    print_line(rt, &out, place)
}

// The reader over a recording, from its start on.
fn run(rt: &impl Print, recording: &[u8], bytes: &mut [u8; 255]) -> io::Result<()> {
    let mut r = line_reader::passing_reader();
    for (tick, pair) in recording.chunks_exact(2).enumerate() {
        let heard = line::heard_of(pair[0] / 32, pair[1]);
        let taken = line_reader::take(r, heard, bytes);
        show_event(rt, tick, taken.event, bytes)?;
        r = taken.receiver;
    }
    Ok(())
}

// A recording has two bytes for each tick. The first is \x00 for silence, a space for a character, and for a damaged one P for parity, o for overrun, \x80 for framing.
fn show_run(rt: &impl Print, name: &[u8], recording: &[u8]) -> io::Result<()> {
    let mut bytes = [0u8; 255];
    print_line(rt, name, name.len())?;
    run(rt, recording, &mut bytes)
}

// Each with a name and its recording.
fn show_runs(rt: &impl Print, runs: &[(&[u8], &[u8])]) -> io::Result<()> {
    for (name, recording) in runs {
        show_run(rt, name, recording)?;
    }
    Ok(())
}

fn whole_frames(rt: &impl Print) -> io::Result<()> {
    show_runs(
        rt,
        &[
            (
                b"a frame after silence",
                b"\x00\x00 \xFF \xFF \xFF \xFF \xFF \x02 \x80 \x00 \x00 \x82",
            ),
            (
                b"STX, ACK and BACK directly behind each other",
                b"\x00\x00 \xFF \xFF \x82 \x80 \x00 \x00 \x00 \x02 \x03 \x00 \x03 \xFF \xFF \x86 \xC0 \x00 \x00 \x00 \x02 \x03 \x02 \x00 \x40 \x05 \xFF \xFF \x81 \xC0 \x00 \x00 \x00 \x02 \x03 \x02 \x00 \x40 \x02",
            ),
            (
                b"two frames with a gap",
                b"\x00\x00 \xFF \xFF \x02 \x80 \x00 \x00 \x82\x00\x00\x00\x00 \xFF \xFF \x06 \x80 \x00 \x02 \x00 \x00 \x84",
            ),
            (
                b"a frame with two expansion bytes",
                b"\x00\x00 \xFF \xFF \x42 \x85 \xAA \xBB \x00 \x00 \xD6",
            ),
            (
                b"ff ff 06 inside the data",
                b"\x00\x00 \xFF \xFF \x06 \x80 \x00 \x05 \x00 \x40 \xFF \xFF \x06 \xC5",
            ),
        ],
    )
}

fn broken_frames(rt: &impl Print) -> io::Result<()> {
    show_runs(
        rt,
        &[
            (
                b"characters before the first silent tick",
                b" \xFF \xFF \x02 \x80 \x00 \x00 \x82\x00\x00 \xFF \xFF \x02 \x80 \x00 \x00 \x82",
            ),
            (
                b"a frame cut by two silent ticks, a good one behind it",
                b"\x00\x00 \xFF \xFF \x06 \x80 \x00 \x02 \x00\x00\x00\x00\x00 \xFF \xFF \x06 \x80 \x00 \x02 \x00 \x00 \x84",
            ),
            (
                b"an ACK with count 1, a good frame behind the next silent tick",
                b"\x00\x00 \xFF \xFF \x06 \x80 \x00 \x01 \x00 \x87\x00\x00 \xFF \xFF \x02 \x80 \x00 \x00 \x82",
            ),
            (
                b"one preamble only",
                b"\x00\x00 \xFF \x02 \x80 \x00 \x00 \x82",
            ),
            (
                b"a wrong character in the preamble",
                b"\x00\x00 \xFF \xFF \x55 \xFF \x02",
            ),
            (
                b"noise directly behind a whole frame",
                b"\x00\x00 \xFF \xFF \x02 \x80 \x00 \x00 \x82 \x55 \x55\x00\x00",
            ),
        ],
    )
}

fn broken_by_damage(rt: &impl Print) -> io::Result<()> {
    show_runs(
        rt,
        &[
            (
                b"parity damage in the preamble",
                b"\x00\x00 \xFFP\xFF \xFF\x00\x00 \xFF \xFF \x02 \x80 \x00 \x00 \x82",
            ),
            (
                b"parity damage in the delimiter",
                b"\x00\x00 \xFF \xFFP\x02 \x80 \x00 \x00 \x82",
            ),
            (
                b"parity damage in the byte count",
                b"\x00\x00 \xFF \xFF \x02 \x80 \x00P\x00 \x82",
            ),
        ],
    )
}

fn damaged_frames(rt: &impl Print) -> io::Result<()> {
    show_runs(
        rt,
        &[
            (
                b"parity damage in the address",
                b"\x00\x00 \xFF \xFF \x02P\x80 \x00 \x00 \x82",
            ),
            (
                b"parity damage in the data",
                b"\x00\x00 \xFF \xFF \x06 \x80 \x00 \x02 \x00P\x01 \x84",
            ),
            (
                b"overrun in the command",
                b"\x00\x00 \xFF \xFF \x02 \x80o\x00 \x00 \x82",
            ),
            (
                b"framing damage in the check byte",
                b"\x00\x00 \xFF \xFF \x02 \x80 \x00 \x00\x80\x82",
            ),
            (
                b"a wrong check byte",
                b"\x00\x00 \xFF \xFF \x02 \x80 \x00 \x00 \x83",
            ),
        ],
    )
}

fn silent_ticks_up_to_expansion(rt: &impl Print) -> io::Result<()> {
    show_runs(
        rt,
        &[
            (
                b"a silent tick between two 0xff",
                b"\x00\x00 \xFF\x00\x00 \xFF \xFF \xC6 \x80 \x00 \x00 \x00 \x02 \xAA \xBB \x03 \x02 \x00 \x40 \x14",
            ),
            (
                b"a silent tick before the delimiter",
                b"\x00\x00 \xFF \xFF \xFF\x00\x00 \xC6 \x80 \x00 \x00 \x00 \x02 \xAA \xBB \x03 \x02 \x00 \x40 \x14",
            ),
            (
                b"a silent tick before the first address byte",
                b"\x00\x00 \xFF \xFF \xFF \xC6\x00\x00 \x80 \x00 \x00 \x00 \x02 \xAA \xBB \x03 \x02 \x00 \x40 \x14",
            ),
            (
                b"a silent tick before another address byte",
                b"\x00\x00 \xFF \xFF \xFF \xC6 \x80 \x00\x00\x00 \x00 \x00 \x02 \xAA \xBB \x03 \x02 \x00 \x40 \x14",
            ),
            (
                b"a silent tick before the first expansion byte",
                b"\x00\x00 \xFF \xFF \xFF \xC6 \x80 \x00 \x00 \x00 \x02\x00\x00 \xAA \xBB \x03 \x02 \x00 \x40 \x14",
            ),
            (
                b"a silent tick before the second expansion byte",
                b"\x00\x00 \xFF \xFF \xFF \xC6 \x80 \x00 \x00 \x00 \x02 \xAA\x00\x00 \xBB \x03 \x02 \x00 \x40 \x14",
            ),
        ],
    )
}

fn silent_ticks_from_command_on(rt: &impl Print) -> io::Result<()> {
    show_runs(
        rt,
        &[
            (
                b"a silent tick before the command",
                b"\x00\x00 \xFF \xFF \xFF \xC6 \x80 \x00 \x00 \x00 \x02 \xAA \xBB\x00\x00 \x03 \x02 \x00 \x40 \x14",
            ),
            (
                b"a silent tick before the byte count",
                b"\x00\x00 \xFF \xFF \xFF \xC6 \x80 \x00 \x00 \x00 \x02 \xAA \xBB \x03\x00\x00 \x02 \x00 \x40 \x14",
            ),
            (
                b"a silent tick before the first data byte",
                b"\x00\x00 \xFF \xFF \xFF \xC6 \x80 \x00 \x00 \x00 \x02 \xAA \xBB \x03 \x02\x00\x00 \x00 \x40 \x14",
            ),
            (
                b"a silent tick before another data byte",
                b"\x00\x00 \xFF \xFF \xFF \xC6 \x80 \x00 \x00 \x00 \x02 \xAA \xBB \x03 \x02 \x00\x00\x00 \x40 \x14",
            ),
            (
                b"a silent tick before the check byte",
                b"\x00\x00 \xFF \xFF \xFF \xC6 \x80 \x00 \x00 \x00 \x02 \xAA \xBB \x03 \x02 \x00 \x40\x00\x00 \x14",
            ),
            (
                b"a silent tick before each character but the first",
                b"\x00\x00 \xFF\x00\x00 \xFF\x00\x00 \xFF\x00\x00 \xC6\x00\x00 \x80\x00\x00 \x00\x00\x00 \x00\x00\x00 \x00\x00\x00 \x02\x00\x00 \xAA\x00\x00 \xBB\x00\x00 \x03\x00\x00 \x02\x00\x00 \x00\x00\x00 \x40\x00\x00 \x14",
            ),
        ],
    )
}

fn frames_cut_up_to_expansion(rt: &impl Print) -> io::Result<()> {
    show_runs(
        rt,
        &[
            (
                b"two silent ticks between two 0xff, and another frame",
                b"\x00\x00 \xFF\x00\x00\x00\x00 \xFF \xFF \x02 \x80 \x00 \x00 \x82",
            ),
            (
                b"two silent ticks before the delimiter, and another frame",
                b"\x00\x00 \xFF \xFF \xFF\x00\x00\x00\x00 \xFF \xFF \x02 \x80 \x00 \x00 \x82",
            ),
            (
                b"two silent ticks before the first address byte, and another frame",
                b"\x00\x00 \xFF \xFF \xFF \xC6\x00\x00\x00\x00 \xFF \xFF \x02 \x80 \x00 \x00 \x82",
            ),
            (
                b"two silent ticks before another address byte, and another frame",
                b"\x00\x00 \xFF \xFF \xFF \xC6 \x80 \x00\x00\x00\x00\x00 \xFF \xFF \x02 \x80 \x00 \x00 \x82",
            ),
            (
                b"two silent ticks before the first expansion byte, and another frame",
                b"\x00\x00 \xFF \xFF \xFF \xC6 \x80 \x00 \x00 \x00 \x02\x00\x00\x00\x00 \xFF \xFF \x02 \x80 \x00 \x00 \x82",
            ),
            (
                b"two silent ticks before the second expansion byte, and another frame",
                b"\x00\x00 \xFF \xFF \xFF \xC6 \x80 \x00 \x00 \x00 \x02 \xAA\x00\x00\x00\x00 \xFF \xFF \x02 \x80 \x00 \x00 \x82",
            ),
        ],
    )
}

fn frames_cut_from_command_on(rt: &impl Print) -> io::Result<()> {
    show_runs(
        rt,
        &[
            (
                b"two silent ticks before the command, and another frame",
                b"\x00\x00 \xFF \xFF \xFF \xC6 \x80 \x00 \x00 \x00 \x02 \xAA \xBB\x00\x00\x00\x00 \xFF \xFF \x02 \x80 \x00 \x00 \x82",
            ),
            (
                b"two silent ticks before the byte count, and another frame",
                b"\x00\x00 \xFF \xFF \xFF \xC6 \x80 \x00 \x00 \x00 \x02 \xAA \xBB \x03\x00\x00\x00\x00 \xFF \xFF \x02 \x80 \x00 \x00 \x82",
            ),
            (
                b"two silent ticks before the first data byte, and another frame",
                b"\x00\x00 \xFF \xFF \xFF \xC6 \x80 \x00 \x00 \x00 \x02 \xAA \xBB \x03 \x02\x00\x00\x00\x00 \xFF \xFF \x02 \x80 \x00 \x00 \x82",
            ),
            (
                b"two silent ticks before another data byte, and another frame",
                b"\x00\x00 \xFF \xFF \xFF \xC6 \x80 \x00 \x00 \x00 \x02 \xAA \xBB \x03 \x02 \x00\x00\x00\x00\x00 \xFF \xFF \x02 \x80 \x00 \x00 \x82",
            ),
            (
                b"two silent ticks before the check byte, and another frame",
                b"\x00\x00 \xFF \xFF \xFF \xC6 \x80 \x00 \x00 \x00 \x02 \xAA \xBB \x03 \x02 \x00 \x40\x00\x00\x00\x00 \xFF \xFF \x02 \x80 \x00 \x00 \x82",
            ),
            (
                b"two silent ticks before the first data byte, and the rest of the frame",
                b"\x00\x00 \xFF \xFF \xFF \xC6 \x80 \x00 \x00 \x00 \x02 \xAA \xBB \x03 \x02\x00\x00\x00\x00 \x00 \x40 \x14",
            ),
            (
                b"a frame cut, one silent tick, a frame that is taken for the rest of it, and two silent ticks",
                b"\x00\x00 \xFF \xFF \x06 \x80\x00\x00 \xFF \xFF \x02 \x80 \x00 \x00 \x82\x00\x00\x00\x00",
            ),
        ],
    )
}

fn damage_behind_silence(rt: &impl Print) -> io::Result<()> {
    show_runs(
        rt,
        &[
            (
                b"parity damage in the address behind a silent tick",
                b"\x00\x00 \xFF \xFF \xFF \xC6\x00\x00P\x80 \x00 \x00 \x00 \x02 \xAA \xBB \x03 \x02 \x00 \x40 \x14",
            ),
            (
                b"overrun in an expansion byte behind a silent tick",
                b"\x00\x00 \xFF \xFF \xFF \xC6 \x80 \x00 \x00 \x00 \x02 \xAA\x00\x00o\xBB \x03 \x02 \x00 \x40 \x14",
            ),
            (
                b"parity damage in the data behind a silent tick",
                b"\x00\x00 \xFF \xFF \xFF \xC6 \x80 \x00 \x00 \x00 \x02 \xAA \xBB \x03 \x02\x00\x00P\x00 \x40 \x14",
            ),
            (
                b"a wrong check byte behind a silent tick",
                b"\x00\x00 \xFF \xFF \xFF \xC6 \x80 \x00 \x00 \x00 \x02 \xAA \xBB \x03 \x02 \x00 \x40\x00\x00 \x15",
            ),
            (
                b"framing damage in the preamble behind a silent tick, and another frame",
                b"\x00\x00 \xFF \xFF\x00\x00\x80\xFF\x00\x00 \xFF \xFF \x02 \x80 \x00 \x00 \x82",
            ),
            (
                b"framing damage in the delimiter behind a silent tick, and another frame",
                b"\x00\x00 \xFF \xFF \xFF\x00\x00\x80\xC6\x00\x00 \xFF \xFF \x02 \x80 \x00 \x00 \x82",
            ),
            (
                b"framing damage in the byte count behind a silent tick, and another frame",
                b"\x00\x00 \xFF \xFF \xFF \xC6 \x80 \x00 \x00 \x00 \x02 \xAA \xBB \x03\x00\x00\x80\x02\x00\x00 \xFF \xFF \x02 \x80 \x00 \x00 \x82",
            ),
        ],
    )
}

fn main(rt: HostRuntime) -> io::Result<()> {
    whole_frames(&rt)?;
    broken_frames(&rt)?;
    broken_by_damage(&rt)?;
    damaged_frames(&rt)?;
    silent_ticks_up_to_expansion(&rt)?;
    silent_ticks_from_command_on(&rt)?;
    frames_cut_up_to_expansion(&rt)?;
    frames_cut_from_command_on(&rt)?;
    damage_behind_silence(&rt)
}
