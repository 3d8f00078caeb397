// What a master works out: its timers and windows, BURST, and what becomes of its message.
#![tactic(auto, using(base::proofs::Choices::choices))]

ghost use Rattle.std.specs.Prelude.{◌≡◌};
ghost use Rattle.turns.specs.Master.{own_rt1, quiet_time, master_with, message_at, timer, burst_timer, opened, count_clear, count_burst, timer_counted, burst_counted, names_device, noted_from, is_noted, burst_after, noted_after, to_itself, broken, ended_by, timer_after, ends, fails, is_answer, at_break, answers_message, at_frame, if_awaiting};
ghost use Rattle.master_rules.specs.Parts.{same_request, unended};

use frame::Header;
use line::{Profile, Receiver, Whole};
use turns::{Ending, Master, MasterTold, Message, Noted, Stage, Timer};

// The RT1 of a master with this master bit.
pub fn rt1_of(p: Profile, primary: bool) -> u16
    ensures { result ≡ own_rt1 p primary }
{
    if primary { p.rt1p } else { p.rt1s }
}

// The master's own RT1.
pub fn own_rt1(m: Master) -> u16
    ensures { result ≡ own_rt1 m.profile m.primary }
{
    rt1_of(m.profile, m.primary)
}

fn quiet_time(m: Master) -> u32
    ensures { result ≡ quiet_time m.profile m.primary }
{
    let twice = 2 * u32::from(m.profile.rt1p);
    if m.primary {
        twice
    } else {
        twice + u32::from(m.profile.rt2)
    }
}

// The same master with other parts.
pub fn with_parts(m: Master, r: Receiver, burst: bool, noted: Noted, t: Timer, g: Message) -> Master
    ensures { result ≡ master_with m r burst noted t g }
{
    Master {
        receiver: r,
        burst,
        noted,
        timer: t,
        message: g,
        ..m
    }
}

// The same message at another stage.
pub fn at_stage(g: Message, stage: Stage) -> Message
    ensures { result ≡ message_at g stage }
{
    // a header made anew field by field stays in registers: a plain copy costs a busy master's tick a quarter of its speed
    Message {
        stage,
        header: Header {
            kind: g.header.kind,
            long: g.header.long,
            primary: g.header.primary,
            burst: g.header.burst,
            address: g.header.address,
            command: g.header.command,
        },
        ..g
    }
}

// A timer n, or none where n is 0, with no window and no quiet time.
pub fn timer_of(n: u32) -> Timer
    ensures { result ≡ timer n }
{
    Timer {
        next: n,
        window: 0,
        quiet: 0,
    }
}

// A timer n, or none where n is 0, and the quiet time.
fn burst_timer(m: Master, n: u32) -> Timer
    ensures { result ≡ burst_timer m.profile m.primary n }
{
    Timer {
        next: n,
        window: 0,
        quiet: quiet_time(m),
    }
}

// A window that opens now.
fn open_window(p: Profile) -> Timer
    ensures { result ≡ opened p }
{
    Timer {
        next: 2 * u32::from(p.rt2),
        window: u32::from(p.hold),
        quiet: 0,
    }
}

// A silent tick with BURST clear.
pub fn count_clear(p: Profile, t: Timer) -> Timer
    ensures { result ≡ count_clear p t }
{
    if t.next == 1 {
        open_window(p)
    } else {
        Timer {
            next: party::one_less(t.next),
            window: party::one_less(t.window),
            quiet: 0,
        }
    }
}

// A silent tick with BURST set, before the quiet time's end.
fn count_burst(p: Profile, t: Timer) -> Timer
    ensures { result ≡ count_burst p t }
{
    let quiet = party::one_less(t.quiet);
    if t.next == 1 {
        Timer {
            next: 0,
            window: u32::from(p.hold),
            quiet,
        }
    } else {
        Timer {
            next: party::one_less(t.next),
            window: party::one_less(t.window),
            quiet,
        }
    }
}

// The timer after a silent tick.
pub fn timer_counted(m: Master) -> Timer
    ensures { result ≡ timer_counted m }
{
    if !m.burst {
        count_clear(m.profile, m.timer)
    } else if m.timer.quiet == 1 {
        open_window(m.profile)
    } else {
        count_burst(m.profile, m.timer)
    }
}

// BURST after a silent tick.
pub fn burst_counted(m: Master) -> bool
    ensures { result ≡ burst_counted m }
{
    m.burst && m.timer.quiet != 1
}

// The address that a frame notes.
fn address_of(h: Header) -> Noted
    ensures { result ≡ noted_from h }
{
    Noted {
        long: h.long,
        address: h.address,
    }
}

fn is_noted(n: Noted, h: Header) -> bool
    ensures { result ≡ is_noted n h }
{
    n.long && n.address == h.address
}

// Whether an address is a device's: a long address is, except in the ACK to command 11 by broadcast, where it is the request's.
fn names_device(h: Header) -> bool
    ensures { result ≡ names_device h }
{
    !party::seeks_tag(h) && h.long
}

// BURST after a frame.
pub fn burst_after(burst: bool, noted: Noted, h: Header) -> bool
    ensures { result ≡ burst_after burst noted h }
{
    match h.kind {
        frame::BACK => true,
        frame::ACK if h.burst => true,
        frame::ACK if names_device(h) && is_noted(noted, h) => false,
        _ => burst,
    }
}

// The noted address after a frame.
pub fn noted_after(noted: Noted, h: Header) -> Noted
    ensures { result ≡ noted_after noted h }
{
    match h.kind {
        frame::BACK => address_of(h),
        frame::ACK if h.burst && names_device(h) => address_of(h),
        _ => noted,
    }
}

// Whether a frame's master bit is the master's own.
fn to_itself(m: Master, h: Header) -> bool
    ensures { result ≡ to_itself m h }
{
    m.primary == h.primary
}

// The timer after a whole frame, with BURST already brought up to date.
pub fn timer_after(m: Master, burst: bool, h: Header) -> Timer
    ensures { result ≡ timer_after m.profile m.primary (ended_by m h) burst }
{
    match h.kind {
        frame::BACK if to_itself(m, h) => burst_timer(m, 0),
        frame::BACK => burst_timer(m, 1),
        _ if burst => burst_timer(m, 0),
        frame::ACK if to_itself(m, h) => timer_of(u32::from(m.profile.rt2)),
        frame::ACK => timer_of(1),
        _ => timer_of(u32::from(own_rt1(m))),
    }
}

// The timer after a broken or damaged frame, and after the master's own STX.
pub fn broken_timer(m: Master) -> Timer
    ensures { result ≡ timer_after m.profile m.primary broken m.burst }
{
    if m.burst {
        burst_timer(m, 0)
    } else {
        timer_of(u32::from(own_rt1(m)))
    }
}

// A message that has ended.
fn ended_with(g: Message, told: MasterTold) -> Ending
    ensures { result ≡ ends g told }
{
    Ending {
        message: at_stage(g, Stage::Free),
        told,
    }
}

// A message whose attempt failed.
fn failed(retries: u8, g: Message) -> Ending
    ensures { result ≡ fails retries g }
{
    if g.attempts <= u16::from(retries) {
        goes_on(at_stage(g, Stage::Waiting))
    } else {
        ended_with(g, MasterTold::GivenUp(g.attempts))
    }
}

// Whether address and command of a frame are those of a request.
fn same_request(q: Header, h: Header) -> bool
    ensures { result ≡ same_request q h }
{
    q.long == h.long && q.address == h.address && q.command == h.command
}

// Whether a frame is an ACK to the master's message.
fn is_answer(m: Master, h: Header) -> bool
    ensures { result ≡ is_answer m h }
{
    h.kind == frame::ACK && to_itself(m, h) && same_request(m.message.header, h)
}

// Whether a frame is the answer to the master's message: a broadcast has none, except for command 11.
fn answers_message(m: Master, h: Header) -> bool
    ensures { result ≡ answers_message m h }
{
    let q = m.message.header;
    (!party::is_broadcast(q) || party::seeks_tag(q)) && is_answer(m, h)
}

// What a whole frame does to a message whose ACK is awaited.
pub fn at_frame(m: Master, w: Whole, bytes: &[u8; 255]) -> Ending
    ensures { result ≡ at_frame m w bytes.now }
{
    if answers_message(m, w.header) && bytes[0] / 128 != 1 {
        ended_with(m.message, MasterTold::Answered(w))
    } else {
        at_break(m)
    }
}

// What a broken frame, or RT1's end, does to it.
pub fn at_break(m: Master) -> Ending
    ensures { result ≡ at_break m }
{
    if party::is_broadcast(m.message.header) {
        ended_with(m.message, MasterTold::BroadcastSent)
    } else {
        failed(m.retries, m.message)
    }
}

// A message that goes on as it is.
fn goes_on(g: Message) -> Ending
    ensures { result ≡ unended g }
{
    Ending {
        message: g,
        told: MasterTold::Nothing,
    }
}

// Only a master that awaits its ACK has an attempt that may end.
pub fn if_awaiting(stage: Stage, g: Message, e: Ending) -> Ending
    ensures { result ≡ if_awaiting stage g e }
{
    match stage {
        Stage::Awaiting(_) => e,
        _ => goes_on(g),
    }
}
