// The player's script: whether it is good, its stop's tick, and the calls of each tick.
#![tactic(auto, using(base::proofs::Choices::choices))]

ghost use Rattle.std.specs.Prelude.{◌≡◌, ◌+◌, ◌-◌, ◌%◌, ◌<◌, ◌≤◌, length};
ghost use Rattle.base.specs.Choice.{when◌then◌else◌, ◌<?◌};
ghost use Rattle.player_script.specs.Script.{entry_of, long_entry_of, width, records_in, is_stop, is_masters, is_devices, is_call, good_in, stop_of, tick_at, form_of, size_in};
ghost use Rattle.player_script.specs.Pieces.{up_to, walked_by, walked_as, stops_after, rest_good, good_after};
ghost use Rattle.player_script.specs.Walk.{entry_at, long_entry_at, entry_in, wanted_by, with_record, no_calls, free_ticks};
ghost use Rattle.base.specs.Refusal.{called_as};

use base::Refusal;

// A script's form: old records have 4 bytes, new ones 6, with a tick of 32 bits.
#[derive(Clone, Copy)]
pub enum Form {
    Old,
    New,
}

// A record of a script.
#[derive(Clone, Copy)]
pub struct Entry {
    pub tick: usize,
    pub party: usize,
    pub action: u8,
    pub argument: u8,
}

// What a script wants of a party in a tick: an action and its argument.
#[derive(Clone, Copy)]
pub struct ScriptCall {
    pub action: u8,
    pub argument: u8,
}

// What a script wants of each party in a tick, and the place after that tick's records.
#[derive(Clone, Copy)]
pub struct ScriptTick {
    // 0 primary, 1 secondary, then the devices
    pub calls: [Option<ScriptCall>; 8],
    pub next: usize,
}

// The form whose records have so many bytes. Another size than 4 or 6 is refused with 24.
#[tactic(auto, using(base::proofs::Choices::choices), unfolding(crate::specs::Script::form_of))]
pub fn form_of(size: usize) -> Result<Form, Refusal>
    ensures { called_as result ≡ form_of size }
{
    match size {
        4 => Ok(Form::Old),
        6 => Ok(Form::New),
        _ => Err(Refusal::RecordSize),
    }
}

// The record size that a word says, for programs that are told it; 0 for a word that says none, as the definition has it.
pub fn size_in(word: &[u8]) -> usize
    ensures { result ≡ size_in word.now }
{
    match word {
        [b'4'] => 4,
        [b'6'] => 6,
        _ => 0,
    }
}

// How many bytes a record has.
#[tactic(auto, using(base::proofs::Choices::choices, crate::proofs::Records::forms))]
fn width(form: Form) -> usize
    ensures { (result ≡ width form) × (4 ≤ result) × (result ≤ 6) }
{
    match form {
        Form::Old => 4,
        Form::New => 6,
    }
}

fn entry_of(a: u8, b: u8, c: u8, d: u8) -> Entry
    ensures { (result ≡ entry_of a b c d) × (result.tick < 4294967296) × (result.party < 16) }
{
    Entry {
        tick: (a as usize) * 256 + (b as usize),
        party: (c as usize) / 16,
        action: c % 16,
        argument: d,
    }
}

fn long_entry_of(a: u8, b: u8, c: u8, d: u8, e: u8, f: u8) -> Entry
    ensures { (result ≡ long_entry_of a b c d e f) × (result.tick < 4294967296) × (result.party < 16) }
{
    let high = (a as usize) * 256 + (b as usize);
    let low = (c as usize) * 256 + (d as usize);
    Entry {
        tick: high * 65536 + low,
        party: (e as usize) / 16,
        action: e % 16,
        argument: f,
    }
}

// Two functions, since the definitions take four bytes and six, one by one.
fn old_at(script: &[u8], at: usize) -> Entry
    requires { at + 4 ≤ length script.now }
    ensures { (result ≡ entry_at script.now at) × (result.tick < 4294967296) × (result.party < 16) }
{
    entry_of(script[at], script[at + 1], script[at + 2], script[at + 3])
}

fn new_at(script: &[u8], at: usize) -> Entry
    requires { at + 6 ≤ length script.now }
    ensures { (result ≡ long_entry_at script.now at) × (result.tick < 4294967296) × (result.party < 16) }
{
    long_entry_of(
        script[at],
        script[at + 1],
        script[at + 2],
        script[at + 3],
        script[at + 4],
        script[at + 5],
    )
}

// The record at a place.
#[tactic(auto, using(base::proofs::Choices::choices, crate::proofs::Records::forms))]
fn entry_at(form: Form, script: &[u8], at: usize) -> Entry
    requires { at + width form ≤ length script.now }
    ensures { (result ≡ entry_in form script.now at) × (result.tick < 4294967296) × (result.party < 16) }
{
    match form {
        Form::Old => old_at(script, at),
        Form::New => new_at(script, at),
    }
}

fn is_masters(action: u8) -> bool
    ensures { result ≡ is_masters action }
{
    action == 1 || action == 3
}

fn is_devices(action: u8) -> bool
    ensures { result ≡ is_devices action }
{
    action == 2 || action == 4 || action == 5
}

fn is_call(e: Entry) -> bool
    ensures { result ≡ is_call e }
{
    if e.party < 2 {
        is_masters(e.action)
    } else {
        e.party < 8 && is_devices(e.action)
    }
}

fn is_stop(e: Entry) -> bool
    ensures { result ≡ is_stop e }
{
    e.action == 0 && e.party == 0 && e.argument == 0
}

// Walks on over records that must be calls, after calls up to this tick. Of each party, marks holds one more than the tick of its last call, and 0 before the first.
#[tactic(auto, using(base::proofs::Choices::choices, crate::proofs::Walks::passes))]
pub fn walk(form: Form, piece: &[u8], since: usize, marks: &mut [usize; 8]) -> Option<usize>
    ensures { walked_as result marks.new ≡ walked_by (up_to since marks.old) (records_in form piece.now) }
{
    let w = width(form);
    let mut last = since;
    let mut at = 0;
    // The place jumps by a record's width.
    while piece.len() - at >= w {
        let e = entry_at(form, piece, at);
        if e.tick < last || !is_call(e) || marks[e.party] == e.tick + 1 {
            return None;
        }
        marks[e.party] = e.tick + 1;
        last = e.tick;
        at += w;
    }
    Some(last)
}

// Whether a record is the stop, after calls up to this tick.
fn stops_after(last: usize, e: Entry) -> bool
    ensures { result ≡ stops_after last e }
{
    last <= e.tick && is_stop(e)
}

// Whether the records that are left are good: calls, and the stop.
#[tactic(auto, using(base::proofs::Choices::choices, crate::proofs::Walks::rests, base::proofs::Stores::take_length_is))]
fn rest_good(form: Form, rest: &[u8], since: usize, marks: &mut [usize; 8]) -> bool
    requires { length rest.now % width form ≡ 0 }
    ensures { result ≡ rest_good (up_to since marks.old) (records_in form rest.now) }
{
    let w = width(form);
    if rest.len() < w {
        return false;
    }
    let at = rest.len() - w;
    match walk(form, &rest[..at], since, marks) {
        None => false,
        Some(last) => stops_after(last, entry_at(form, rest, at)),
    }
}

// Whether what is left of a script is good, after calls that were walked.
pub fn good_after(form: Form, rest: &[u8], since: usize, marks: &mut [usize; 8]) -> bool
    ensures { result ≡ good_after form (up_to since marks.old) rest.now }
{
    rest.len() % width(form) == 0 && rest_good(form, rest, since, marks)
}

// Whether a script is good.
#[tactic(auto, using(base::proofs::Choices::choices, crate::proofs::Good::whole))]
pub fn is_good(form: Form, script: &[u8]) -> bool
    ensures { result ≡ good_in form script.now }
{
    let mut marks = [0usize; 8];
    good_after(form, script, 0, &mut marks)
}

// The stop's tick: that of the last whole record, and 0 where there is none, as the definition has it.
#[tactic(auto, using(base::proofs::Choices::choices, crate::proofs::Records::stops))]
pub fn stop_tick(form: Form, script: &[u8]) -> u32
    ensures { result ≡ stop_of (records_in form script.now) }
{
    let w = width(form);
    let whole = script.len() - script.len() % w;
    if whole == 0 {
        0
    } else {
        entry_at(form, script, whole - w).tick as u32
    }
}

fn wanted_by(e: Entry) -> Option<ScriptCall>
    ensures { result ≡ wanted_by e }
{
    if e.action == 0 {
        None
    } else {
        Some(ScriptCall {
            action: e.action,
            argument: e.argument,
        })
    }
}

// One record more of the tick: a party's call stays, and a party that has none takes the record's, if it is its own.
#[tactic(auto, using(base::proofs::Choices::choices, crate::proofs::Calls::keeps))]
fn with_record(w: usize, t: ScriptTick, e: Entry) -> ScriptTick
    requires { t.next + w < 18446744073709551616 }
    ensures { result ≡ with_record w t e }
{
    let mut calls = t.calls;
    if e.party < 8 {
        calls[e.party] = calls[e.party].or(wanted_by(e));
    }
    ScriptTick {
        calls,
        next: t.next + w,
    }
}

// No call, and the place where reading begins.
fn no_calls(at: usize) -> ScriptTick
    ensures { result ≡ no_calls at }
{
    ScriptTick {
        calls: [None; 8],
        next: at,
    }
}

// What a script wants of each party in a tick, read from a place on, and the place after that tick's records.
#[tactic(auto, using(base::proofs::Choices::choices, crate::proofs::Calls::walks))]
pub fn calls_at(form: Form, script: &[u8], at: usize, tick: usize) -> ScriptTick
    ensures { result ≡ tick_at form script.now at tick }
{
    let w = width(form);
    let mut t = no_calls(at);
    if script.len() < at {
        return t;
    }
    // The place jumps by a record's width.
    while script.len() - t.next >= w {
        let e = entry_at(form, script, t.next);
        if e.tick != tick {
            return t;
        }
        t = with_record(w, t, e);
    }
    t
}

// The ticks up to the next record's, or up to the stop's if that is earlier.
fn free_before(next: usize, tick: u32, stop: u32) -> u32
    requires { next < 4294967296 }
    ensures { result ≡ (when next <? stop then next else stop) - tick }
{
    let end = if next < (stop as usize) {
        next as u32
    } else {
        stop
    };
    end.saturating_sub(tick)
}

// How many ticks from this one on have no record, before the stop. The next record stands at this place.
#[tactic(auto, using(base::proofs::Choices::choices, crate::proofs::Free::frees))]
pub fn free_ticks(form: Form, script: &[u8], at: usize, tick: u32, stop: u32) -> u32
    ensures { result ≡ free_ticks form script.now at tick stop }
{
    if tick == 0 {
        0
    } else if script.len() < at || script.len() - at < width(form) {
        stop.saturating_sub(tick)
    } else {
        free_before(entry_at(form, script, at).tick, tick, stop)
    }
}
