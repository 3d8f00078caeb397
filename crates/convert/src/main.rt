// Turns the script on standard input into the other form, and writes it to standard output. Its argument is the size of the script's records, 4 or 6. A refusal is printed as its number.
#![tactic(auto)]

use base::Refusal;
use player_input::{Input, ROOM};
use player_script::Form;
use std::env::Env;
use std::io;
use std::io::Read;

// The size that the argument says, and none without one or with more.
fn record_size(rt: &impl Env) -> usize {
    let mut word = [0u8; program_files::ARGUMENT];
    let n = program_files::argument(rt, 1, &mut word);
    if program_files::argument_count(rt) == 2 {
        player_script::size_in(&word[..n])
    } else {
        0
    }
}

fn print_converted(rt: &impl Print, size: usize, script: &[u8], out: &mut [u8]) -> io::Result<()> {
    match player_convert::convert(size, script, out) {
        Ok(end) => rt.write_all(texts::front(out, end)),
        Err(why) => player_input::print_refusal(rt, why),
    }
}

// A good script that is longer than the room: its stop's tick is too large to turn back, or the result has no room.
fn print_long(rt: &impl Print, stop: u32) -> io::Result<()> {
    let why = if 65535 < stop {
        Refusal::TickTooLarge
    } else {
        Refusal::BufferShort
    };
    player_input::print_refusal(rt, why)
}

// The script on standard input.
fn convert_input<R: Read>(
    rt: &impl Print,
    size: usize,
    form: Form,
    reader: &mut R,
    script: &mut [u8; ROOM],
    out: &mut [u8; ROOM],
) -> io::Result<()> {
    match player_input::read(form, reader, script) {
        Input::Whole(n) => print_converted(rt, size, texts::front(script, n), out),
        Input::LongGood(stop) => print_long(rt, stop),
        Input::LongBad => player_input::print_refusal(rt, Refusal::BadScript),
    }
}

fn main(rt: HostRuntime) -> io::Result<()> {
    let mut script = [0u8; ROOM];
    let mut out = [0u8; ROOM];
    let size = record_size(&rt);
    match player_script::form_of(size) {
        Ok(form) => { convert_input(&rt, size, form, &mut rt.stdin(), &mut script, &mut out) }
        Err(why) => player_input::print_refusal(&rt, why),
    }
}
