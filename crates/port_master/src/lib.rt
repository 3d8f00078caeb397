// The master of the infrared port: its start, its host's requests, its wake-up, and its tick. The functions follow the definitions of crates/port/specs/Master.antt, in their order.
#![tactic(auto, using(base::proofs::Choices::choices))]

ghost use Rattle.std.specs.Prelude.{◌≡◌, ◌-◌};
ghost use Rattle.port.specs.Master.{after_port_frame, by_found, ends_answer, since_after, begins, wakes_first, wake_up_character, deafened, sends_wake_up, sends_plain, port_master_sends, port_master_starts};
ghost use Rattle.port.specs.Master as P;
ghost use Rattle.port_master.specs.Calls.{PortRequestIs};
ghost use Rattle.port_master.specs.Ticks.{PortMasterTickIs};
ghost use Rattle.port_master.specs.Parts.{after_other, PortTakeIs, PortCalledIs};
ghost use Rattle.base.specs.Refusal.{called_as};

use base::Refusal;
use line::{Event, Heard, Profile, Receiver, Whole};
use port::{PortMaster, PortMasterSent, PortMasterTaken};
use turns::{CallResult, Master, MasterTaken, MasterTold, Request, Sent, Stage};

// A master after its host's call. The device's is a struct of its own: one generic for both would be no plainer than these two fields.
#[derive(Clone, Copy)]
struct PortCallTaken {
    master: PortMaster,
    result: CallResult,
}

// A master after a tick, what it sends, and what it tells its host.
#[derive(Clone, Copy)]
pub struct PortMasterTicked {
    pub master: PortMaster,
    pub sent: Sent,
    pub told: MasterTold,
    pub event: Event,
    pub result: CallResult,
}

// After a frame that is no BACK: BURST stays as it is.
fn after_other(m: Master, r: Receiver, w: Whole, bytes: &[u8; 255]) -> MasterTaken
    ensures { result ≡ after_other m r w bytes.now }
{
    let timer = master_rules::timer_after(m, m.burst, w.header);
    let found = master_rules::at_frame(m, w, bytes);
    let ending = master_rules::if_awaiting(m.message.stage, m.message, found);
    MasterTaken {
        master: master_rules::with_parts(m, r, m.burst, m.noted, timer, ending.message),
        told: ending.told,
        event: Event::Frame(w),
    }
}

// After a whole frame without damage: a BACK counts as a damaged frame.
#[tactic(auto, using(base::proofs::Choices::choices), unfolding(port::specs::Master::after_port_frame))]
fn after_port_frame(m: Master, r: Receiver, w: Whole, bytes: &[u8; 255]) -> MasterTaken
    ensures { result ≡ after_port_frame m r w bytes.now }
{
    if w.header.kind == frame::BACK {
        master::after_break(m, r, Event::Damaged(w, port::NO_DAMAGE))
    } else {
        after_other(m, r, w, bytes)
    }
}

// By what the pair's master m finds in this tick.
fn by_found(m: Master, t: MasterTaken, bytes: &[u8; 255]) -> MasterTaken
    ensures { result ≡ by_found m bytes.now t t.event }
{
    match t.event {
        Event::Frame(w) => after_port_frame(m, t.master.receiver, w, bytes),
        _ => t,
    }
}

// Whether an answer ends here.
fn ends_answer(event: Event) -> bool
    ensures { result ≡ ends_answer event }
{
    matches!(event, Event::Frame(w) if w.header.kind == frame::ACK)
}

// Ticks since an answer's last character.
fn since_after(n: u16, event: Event) -> u16
    ensures { result ≡ since_after n event }
{
    if ends_answer(event) {
        1
    } else if n <= port::DOZE_TICKS {
        n + 1
    } else {
        n
    }
}

// Takes what was heard. The data of the frame being heard are kept in the lent bytes.
#[tactic(auto, using(base::proofs::Choices::choices, crate::proofs::Laws::wholes))]
fn take(x: PortMaster, heard: Heard, bytes: &mut [u8; 255]) -> PortMasterTaken
    ensures { PortTakeIs x heard bytes.old result bytes.new }
{
    let t = by_found(x.master, master::take(x.master, heard, bytes), bytes);
    PortMasterTaken {
        master: PortMaster {
            master: t.master,
            since: since_after(x.since, t.event),
            ..x
        },
        told: t.told,
        event: t.event,
    }
}

// A host's request: its STX is put into the lent frame buffer, or it is refused and the buffer stays as it was.
fn request(
    limit: u8,
    m: Master,
    q: Request,
    bytes: &[u8],
    frame: &mut [u8; 284],
) -> Result<Master, Refusal>
    ensures { PortRequestIs limit m q bytes.now frame.old result frame.new }
{
    if q.preamble == port::PREAMBLE {
        master::request(limit, m, q, bytes, frame)
    } else {
        Err(Refusal::PreambleLength)
    }
}

#[tactic(auto, using(base::proofs::Choices::choices, crate::proofs::Laws::calls))]
fn take_call(
    limit: u8,
    x: PortMaster,
    call: Option<Request>,
    put: &[u8],
    frame: &mut [u8; 284],
) -> PortCallTaken
    ensures { PortCalledIs limit x call put.now frame.old result frame.new }
{
    let Some(q) = call else {
        return PortCallTaken {
            master: x,
            result: CallResult::Nothing,
        };
    };
    match request(limit, x.master, q, put, frame) {
        Ok(master) => PortCallTaken {
            master: PortMaster { master, ..x },
            result: CallResult::Taken,
        },
        Err(why) => PortCallTaken {
            master: x,
            result: CallResult::Refused(why.number()),
        },
    }
}

// Whether an STX begins in this tick.
fn begins_stx(m: Master) -> bool
    ensures { result ≡ begins m m.message.stage }
{
    matches!(m.message.stage, Stage::Waiting) && 0 < m.timer.window
}

// Whether a wake-up goes first.
fn wakes_first(x: PortMaster) -> bool
    ensures { result ≡ wakes_first x }
{
    begins_stx(x.master) && port::DOZE_TICKS < x.since
}

// The character of a wake-up with so many still to be sent, this one among them.
fn wake_up_character(n: u16) -> u8
    ensures { result ≡ wake_up_character n }
{
    if n % 2 == 0 { 0x00 } else { 0xFF }
}

// A character of the wake-up with n still to be sent, this one among them.
fn send_wake_up(x: PortMaster, n: u16) -> PortMasterSent
    ensures { result ≡ sends_wake_up x n }
{
    let master = Master {
        deaf: true,
        ..x.master
    };
    PortMasterSent {
        master: PortMaster {
            master,
            wake: Some(n.saturating_sub(1)),
            ..x
        },
        sent: Sent::Character(wake_up_character(n)),
    }
}

// What document 01's master sends.
fn send_plain(x: PortMaster, frame: &[u8; 284]) -> PortMasterSent
    ensures { result ≡ sends_plain x frame.now }
{
    let s = master::send(x.master, frame);
    PortMasterSent {
        master: PortMaster {
            master: s.master,
            wake: None,
            ..x
        },
        sent: s.sent,
    }
}

// Sends a character of the wake-up or of the STX that stands in the lent frame buffer, or none.
#[tactic(auto, using(base::proofs::Choices::choices), unfolding(port::specs::Master::port_master_sends))]
fn send(x: PortMaster, frame: &[u8; 284]) -> PortMasterSent
    ensures { result ≡ port_master_sends x frame.now }
{
    match x.wake {
        None if wakes_first(x) => send_wake_up(x, port::WAKE_UP_LENGTH),
        Some(left) if 0 < left => send_wake_up(x, left),
        _ => send_plain(x, frame),
    }
}

// A fresh master, or refusal 2.
pub fn start(primary: bool, retries: u8) -> Result<PortMaster, Refusal>
    ensures { called_as result ≡ port_master_starts primary retries }
{
    let master = master::start(Profile::infrared(), primary, retries)?;
    Ok(PortMaster {
        master,
        since: port::DOZE_TICKS + 1,
        wake: None,
    })
}

// A tick, where data are at most the limit. Lent are the data of a request, the buffer that holds the master's STX and the one for the data of the frame that it hears.
pub fn tick(
    limit: u8,
    x: PortMaster,
    heard: Heard,
    call: Option<Request>,
    put: &[u8],
    frame: &mut [u8; 284],
    bytes: &mut [u8; 255],
) -> PortMasterTicked
    ensures { PortMasterTickIs limit x heard call put.now frame.old bytes.old result
        frame.new bytes.new }
{
    let t = take(x, heard, bytes);
    let c = take_call(limit, t.master, call, put, frame);
    let s = send(c.master, frame);
    PortMasterTicked {
        master: s.master,
        sent: s.sent,
        told: t.told,
        event: t.event,
        result: c.result,
    }
}
