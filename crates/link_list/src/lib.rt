// A list of ticks as bytes, and the calls of each tick. Every byte string is some list of ticks (specs/Ticks.antt).
#![tactic(auto, using(base::proofs::Choices::choices, crate::proofs::Places::places))]

ghost use Rattle.std.specs.Prelude.{◌≡◌, ◌+◌, ◌*◌, ◌%◌, ◌^◌, ◌≤◌, ◌<◌, Some, length, drop};
ghost use Rattle.frame.specs.Address.{byte_at};
ghost use Rattle.link_list.specs.Ticks.{length_in, address_in, request_of, request_by, request_in, answer_in};
ghost use Rattle.link_list.specs.Read.{part_in, forward, next_in, master_call_at, device_call_at, CallsRead, tick_from, tick_at};

use device_tick::DeviceCall;
use link_parties::{Calls, DeviceCallWithPart, MasterCallWithPart, Part};
use turns::Request;

// A byte of what is left of the list, or 0 past its end.
fn byte_in(rest: &[u8], k: usize) -> u8
    ensures { result ≡ byte_at rest.now k }
{
    if k < rest.len() { rest[k] } else { 0 }
}

// A length of two bytes, modulo 257.
fn length_of(high: u8, low: u8) -> usize
    ensures { result ≡ (high * 256 + low) % 257 }
{
    (usize::from(high) * 256 + usize::from(low)) % 257
}

// How long a call's data are.
fn length_in(rest: &[u8]) -> usize
    ensures { (result ≡ length_in rest.now) × (result < 257) }
{
    length_of(byte_in(rest, 8), byte_in(rest, 9))
}

// An address of five bytes.
fn address_of(a: u8, b: u8, c: u8, d: u8, e: u8) -> u64
    ensures { result ≡ a * 2 ^ 32 + b * 2 ^ 24 + c * 2 ^ 16 + d * 2 ^ 8 + e }
{
    u64::from(a) * 4294967296
        + u64::from(b) * 16777216
        + u64::from(c) * 65536
        + u64::from(d) * 256
        + u64::from(e)
}

// A call's address.
fn address_in(rest: &[u8]) -> u64
    ensures { result ≡ address_in rest.now }
{
    address_of(
        byte_in(rest, 3),
        byte_in(rest, 4),
        byte_in(rest, 5),
        byte_in(rest, 6),
        byte_in(rest, 7),
    )
}

// A call's data.
fn part_in(ticks: &[u8], at: usize) -> Part
    requires { at ≤ length ticks.now }
    ensures { result ≡ part_in ticks.now at }
{
    if ticks.len() - at < 10 {
        Part { from: at, count: 0 }
    } else {
        Part {
            from: at + 10,
            count: length_in(&ticks[at..]),
        }
    }
}

// So many places further, or the end.
fn forward(at: usize, n: usize, end: usize) -> usize
    requires { at ≤ end }
    ensures { (result ≡ forward at n end) × (result ≤ end) }
{
    if end - at < n { end } else { at + n }
}

// The place after a call.
#[tactic(auto, using(base::proofs::Choices::choices), unfolding(crate::specs::Read::next_in))]
fn next_in(ticks: &[u8], at: usize) -> usize
    requires { at ≤ length ticks.now }
    ensures { (result ≡ next_in ticks.now at) × (result ≤ length ticks.now) }
{
    let rest = &ticks[at..];
    if byte_in(rest, 0) == 0 {
        forward(at, 1, ticks.len())
    } else {
        forward(at, 10 + length_in(rest), ticks.len())
    }
}

// A master's request.
fn wanted_in(rest: &[u8], long: bool) -> Request
    ensures { Some result ≡ request_of long rest.now }
{
    Request {
        preamble: usize::from(byte_in(rest, 1)),
        revision: byte_in(rest, 0) / 4,
        long,
        address: address_in(rest),
        command: byte_in(rest, 2),
    }
}

// A master's call, by its form.
fn request_by(form: u8, rest: &[u8]) -> Option<Request>
    ensures { result ≡ request_by form rest.now }
{
    match form {
        1 => Some(wanted_in(rest, false)),
        2 => Some(wanted_in(rest, true)),
        _ => None,
    }
}

fn request_in(rest: &[u8]) -> Option<Request>
    ensures { result ≡ request_in rest.now }
{
    request_by(byte_in(rest, 0) % 4, rest)
}

// A device's call, by its kind.
fn answer_in(rest: &[u8]) -> DeviceCall
    ensures { result ≡ answer_in rest.now }
{
    device_tick::host_call_by(byte_in(rest, 0), byte_in(rest, 2))
}

fn master_call(ticks: &[u8], at: usize) -> MasterCallWithPart
    requires { at ≤ length ticks.now }
    ensures { result ≡ master_call_at ticks.now at }
{
    MasterCallWithPart {
        call: request_in(&ticks[at..]),
        part: part_in(ticks, at),
    }
}

fn device_call(ticks: &[u8], at: usize) -> DeviceCallWithPart
    requires { at ≤ length ticks.now }
    ensures { result ≡ device_call_at ticks.now at }
{
    DeviceCallWithPart {
        call: answer_in(&ticks[at..]),
        part: part_in(ticks, at),
    }
}

// The calls of the devices, and the place after them.
fn devices_read(ticks: &[u8], start: usize) -> ([DeviceCallWithPart; 6], usize)
    requires { start ≤ length ticks.now }
    ensures { CallsRead device_call_at ticks.now 6 start result.0 result.1 }
{
    let mut calls = [link_parties::no_device_call(); 6];
    let mut at = start;
    for call in &mut calls {
        *call = device_call(ticks, at);
        at = next_in(ticks, at);
    }
    (calls, at)
}

// The calls of a tick, and the place after it.
#[derive(Clone, Copy)]
pub struct TickRead {
    pub calls: Calls,
    pub next: usize,
}

fn tick_from(ticks: &[u8], at: usize) -> TickRead
    requires { at ≤ length ticks.now }
    ensures { result ≡ tick_from ticks.now at }
{
    let second = next_in(ticks, at);
    let (devices, next) = devices_read(ticks, next_in(ticks, second));
    TickRead {
        calls: Calls {
            masters: [master_call(ticks, at), master_call(ticks, second)],
            devices,
        },
        next,
    }
}

// The calls of the tick that stands at this place of the list, or at its end, and the place after it.
pub fn read(ticks: &[u8], at: usize) -> TickRead
    ensures { result ≡ tick_at ticks.now at }
{
    tick_from(ticks, at.min(ticks.len()))
}
