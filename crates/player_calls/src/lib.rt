// The calls of a tick that a script wants, for the link. Their data are the first of so many zero bytes.
#![tactic(auto, using(base::proofs::Choices::choices, crate::proofs::Wanteds::wanteds))]

ghost use Rattle.std.specs.Prelude.{◌≡◌, Some};
ghost use Rattle.player_calls.specs.Calls.{zeros, master_call_for, request_with, device_call_for, answer_with, device_call_in, calls_for};

use device_tick::DeviceCall;
use link_parties::{Calls, DeviceCallWithPart, MasterCallWithPart, Part};
use player_script::{ScriptCall, ScriptTick};
use turns::Wish;

// So many of the zero bytes, from the first on.
fn zeros(n: u8) -> Part
    ensures { result ≡ zeros n }
{
    Part {
        from: 0,
        count: n as usize,
    }
}

// A request for a command of this address.
fn request_with(long: bool, address: u8, command: u8) -> MasterCallWithPart
    ensures { result ≡ request_with long address command }
{
    MasterCallWithPart {
        call: Some(turns::Request {
            preamble: 5,
            revision: 7,
            long,
            address: address as u64,
            command,
        }),
        part: zeros(0),
    }
}

// A master's action.
fn request_for(w: ScriptCall) -> MasterCallWithPart
    ensures { result ≡ master_call_for (Some w) }
{
    if w.action == 1 {
        request_with(false, w.argument, 0)
    } else {
        request_with(true, w.argument, 3)
    }
}

fn master_call(w: Option<ScriptCall>) -> MasterCallWithPart
    ensures { result ≡ master_call_for w }
{
    match w {
        None => link_parties::no_master_call(),
        Some(w) => request_for(w),
    }
}

// An answer with so many zero bytes.
fn answer_with(wish: Wish, count: u8) -> DeviceCallWithPart
    ensures { result ≡ answer_with wish count }
{
    DeviceCallWithPart {
        call: DeviceCall::Answers(wish),
        part: zeros(count),
    }
}

// A device's action.
fn answer_for(w: ScriptCall) -> DeviceCallWithPart
    ensures { result ≡ device_call_for (Some w) }
{
    let wish = match w.action {
        2 => Wish::Same,
        4 => Wish::On,
        _ => Wish::Off,
    };
    answer_with(wish, w.argument)
}

fn device_call(w: Option<ScriptCall>) -> DeviceCallWithPart
    ensures { result ≡ device_call_for w }
{
    match w {
        None => link_parties::no_device_call(),
        Some(w) => answer_for(w),
    }
}

// A device's burst content in tick 0, and its action in every other tick.
fn call_in(tick: usize, w: Option<ScriptCall>) -> DeviceCallWithPart
    ensures { result ≡ device_call_in tick w }
{
    if tick == 0 {
        DeviceCallWithPart {
            call: DeviceCall::Content(3),
            part: zeros(2),
        }
    } else {
        device_call(w)
    }
}

// The calls of a tick.
pub fn calls_of(tick: usize, t: ScriptTick) -> Calls
    ensures { result ≡ calls_for tick t }
{
    Calls {
        masters: [master_call(t.calls[0]), master_call(t.calls[1])],
        devices: [
            call_in(tick, t.calls[2]),
            call_in(tick, t.calls[3]),
            call_in(tick, t.calls[4]),
            call_in(tick, t.calls[5]),
            call_in(tick, t.calls[6]),
            call_in(tick, t.calls[7]),
        ],
    }
}
