// Plays the script on standard input, and writes what the player prints to standard output, piece by piece. Its argument is the size of a record, 4 or 6; without one it is 4.
#![tactic(auto)]

use base::Refusal;
use player::{Playing, Told};
use player_input::{Input, ROOM};
use player_script::Form;
use std::env::Env;
use std::io;
use std::io::Read;

// The size that the argument says.
fn argument(rt: &impl Env) -> usize {
    let mut word = [0u8; program_files::ARGUMENT];
    let n = program_files::argument(rt, 1, &mut word);
    player_script::size_in(&word[..n])
}

// The size of a record: 4 without an argument, and none with more than one.
fn record_size(rt: &impl Env) -> usize {
    match program_files::argument_count(rt) {
        0 | 1 => 4,
        2 => argument(rt),
        _ => 0,
    }
}

// A piece of the play, written.
fn print_piece(
    rt: &impl Print,
    p: Playing,
    told: Told,
    script: &[u8],
    frames: &mut [[u8; 284]; 8],
    bytes: &mut [[u8; 255]; 8],
    contents: &mut [[u8; 255]; 6],
    out: &mut [u8; 65536],
) -> io::Result<Playing> {
    let next = player::play_on(p, told, script, frames, bytes, contents, out);
    rt.write_all(texts::front(out, next.at))?;
    Ok(next)
}

// The header line, and all pieces of the play. Each piece goes on, since there is room for the lines of 64 ticks.
fn print_play(rt: &impl Print, told: Told, script: &[u8]) -> io::Result<()> {
    let mut frames = [[0u8; 284]; 8];
    let mut bytes = [[0u8; 255]; 8];
    let mut contents = [[0u8; 255]; 6];
    let mut out = [0u8; 65536];
    let mut p = player::play_begin(&mut out);
    rt.write_all(texts::front(&out, p.at))?;
    while p.tick < told.stop {
        let next = print_piece(
            rt,
            p,
            told,
            script,
            &mut frames,
            &mut bytes,
            &mut contents,
            &mut out,
        )?;
        if next.tick <= p.tick {
            return Ok(());
        }
        p = next;
    }
    Ok(())
}

// A script of this form.
fn play_form(rt: &impl Print, form: Form, script: &[u8]) -> io::Result<()> {
    if player_script::is_good(form, script) {
        print_play(rt, player::told_of(form, script), script)
    } else {
        player_input::print_refusal(rt, Refusal::BadScript)
    }
}

// The script on standard input; one longer than the room is refused with 16 or 15.
fn play_input<R: Read>(
    rt: &impl Print,
    form: Form,
    reader: &mut R,
    script: &mut [u8; ROOM],
) -> io::Result<()> {
    match player_input::read(form, reader, script) {
        Input::Whole(n) => play_form(rt, form, texts::front(script, n)),
        Input::LongGood(_) => player_input::print_refusal(rt, Refusal::BufferShort),
        Input::LongBad => player_input::print_refusal(rt, Refusal::BadScript),
    }
}

fn main(rt: HostRuntime) -> io::Result<()> {
    let mut script = [0u8; ROOM];
    match player_script::form_of(record_size(&rt)) {
        Ok(form) => play_input(&rt, form, &mut rt.stdin(), &mut script),
        Err(why) => player_input::print_refusal(&rt, why),
    }
}
