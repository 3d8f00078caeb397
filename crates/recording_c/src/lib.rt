// Recordings for programs in C and Rust: what the tick reader tells in each tick of one, the list of its frames and breaks, and two taps joined.
#![tactic(auto, using(crate::proofs::Calls::calls, crate::proofs::Calls::list_calls))]

ghost use Rattle.std.specs.Prelude.{◌≡◌};
ghost use Rattle.base.specs.Events.{RunIs};
ghost use Rattle.recording_c.specs.Ticks.{step, told};
ghost use Rattle.recording_c.specs.Numbers.{ListCall, JoinCall};

use line::{Receiver, Taken};
use recording_join::JoinError;

// A tick of the reader, made from the two bytes of a recording.
#[tactic(auto, using(crate::proofs::Reader::step_same))]
fn stepped(r: Receiver, first: u8, c: u8, bytes: &mut [u8; 255]) -> Taken
    ensures { result ≡ step r first c }
{
    line_reader::take(r, line::heard_of(first / 32, c), bytes)
}

// The reader over a recording, from its start on; bytes holds the data of the frame being heard.
#[tactic(auto, using(crate::proofs::Reader::runs))]
fn run(recording: &[u8], events: &mut [u8], bytes: &mut [u8; 255]) -> usize
    ensures { RunIs (told recording.now) events.old result events.new }
{
    let mut r = line_reader::passing_reader();
    let ticks = (recording.len() / 2).min(events.len());
    for i in 0..ticks {
        let taken = stepped(r, recording[2 * i], recording[2 * i + 1], bytes);
        events[i] = taken.event.number();
        r = taken.receiver;
    }
    ticks
}

// What the reader tells in each tick of a recording, from its start on: at the front of events, for as many ticks as both have room for. Returns their number.
#[unsafe(no_mangle)]
pub extern "C" fn nengapiko_ticks(recording: &[u8], events: &mut [u8]) -> usize
    ensures { RunIs (told recording.now) events.old result events.new }
{
    let mut bytes = [0u8; 255];
    run(recording, events, &mut bytes)
}

// Lists the frames and breaks of a recording at the front of out, and sets entries to their number; or returns the refusal's number and changes nothing.
#[unsafe(no_mangle)]
pub extern "C" fn nengapiko_list(recording: &[u8], out: &mut [u8], entries: &mut usize) -> u32
    ensures { ListCall recording.now out entries result }
{
    match recording_list::list(recording, out) {
        Ok(n) => {
            *entries = n;
            0
        }
        Err(why) => why.number(),
    }
}

// Joins two recordings at the front of out; or returns the refusal's number, and for 23 sets tick to the first tick with two different characters, and changes nothing else.
#[unsafe(no_mangle)]
pub extern "C" fn nengapiko_join(
    first: &[u8],
    second: &[u8],
    out: &mut [u8],
    tick: &mut usize,
) -> u32
    ensures { JoinCall first.now second.now out tick result }
{
    match recording_join::join(first, second, out) {
        Ok(()) => 0,
        Err(JoinError::Refused(why)) => why.number(),
        Err(JoinError::Differ(t)) => {
            *tick = t;
            23
        }
    }
}
