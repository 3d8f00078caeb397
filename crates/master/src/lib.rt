// A master: its start, its host's requests, what it sends, and its tick, in which it takes what was heard, then a request, then sends a character or none.
#![tactic(auto, using(base::proofs::Choices::choices))]

mod hears;

ghost use Rattle.std.specs.Prelude.{◌≡◌, true, false, length, ◌≤◌};
ghost use Rattle.base.specs.Choice.{when◌then◌else◌, ◌=?◌};
ghost use Rattle.frame.specs.Limits.{largest_polling, reserved_command};
ghost use Rattle.frame.proofs.Taken.{Fits};
ghost use Rattle.turns.specs.Master.{has_message, polling_up_to, sends_at, one_more, master_sends, no_message, fresh_master, master_starts};
ghost use Rattle.master.specs.Answers.{UpToIs, RequestIs};
ghost use Rattle.master.specs.Parts.{with_message, Fitting, FramePutIs, sends_nothing, sends_character};
ghost use Rattle.master.specs.Tick.{MasterCalledIs, MasterTickIs};
ghost use Rattle.base.specs.Refusal.{called_as};

use base::Refusal;
use frame::Header;
pub use hears::{after_break, take};
use line::{Event, Heard, Profile, Receiver};
use turns::{
    CallResult, Master, MasterSent, MasterTold, Message, Noted, Request, Sent, Stage, Timer,
};

// A master after its host's call.
#[derive(Clone, Copy)]
struct MasterCallTaken {
    master: Master,
    result: CallResult,
}

// A master after a tick, what it sends, and what it tells its host.
#[derive(Clone, Copy)]
pub struct MasterTicked {
    pub master: Master,
    pub sent: Sent,
    pub told: MasterTold,
    pub event: Event,
    pub result: CallResult,
}

// Refusal 5: command 254, or a short address with a command but 0.
fn command_refused(long: bool, command: u8) -> bool
    ensures { result ≡ (when command =? reserved_command then true else when long then false else (when command =? 0 then false else true)) }
{
    command == 254 || !long && command != 0
}

fn has_message(stage: Stage) -> bool
    ensures { result ≡ has_message stage }
{
    !matches!(stage, Stage::Free)
}

// A master with a message that waits.
fn with_message(m: Master, h: Header, length: u16) -> Master
    ensures { result ≡ with_message m h length }
{
    Master {
        message: Message {
            header: h,
            stage: Stage::Waiting,
            length,
            attempts: 0,
        },
        ..m
    }
}

// Puts an STX that can be written into the lent frame buffer; returns how many characters it has.
fn put_stx(preamble: usize, h: Header, bytes: &[u8], frame: &mut [u8; 284]) -> u16
    requires { Fits preamble h (length bytes.now) }
    ensures { FramePutIs preamble h bytes.now frame.old result frame.new }
{
    match frame_write::write(preamble, h, bytes, frame, 0) {
        Ok(end) => end as u16,
        Err(_) => 0,
    }
}

// The largest polling address that a device of this revision knows.
fn polling_up_to(revision: u8) -> u64
    ensures { (result ≡ polling_up_to revision) × (result ≤ largest_polling) }
{
    if revision <= 5 { 15 } else { 63 }
}

// A request, checked from its address on, where polling addresses go up to the second parameter.
#[tactic(auto, using(base::proofs::Choices::choices, crate::proofs::Requests::requests), unfolding(turns::specs::Master::requested_up_to))]
fn request_up_to(
    limit: u8,
    polling: u64,
    m: Master,
    q: Request,
    bytes: &[u8],
    frame: &mut [u8; 284],
) -> Result<Master, Refusal>
    requires { Fitting polling q.preamble }
    ensures { UpToIs limit polling m q bytes.now frame.old result frame.new }
{
    let h = Header {
        kind: frame::STX,
        long: q.long,
        primary: m.primary,
        burst: false,
        address: q.address,
        command: q.command,
    };
    if frame_write::address_above(polling, h) {
        return Err(Refusal::Address);
    }
    if command_refused(q.long, q.command) {
        return Err(Refusal::Command);
    }
    if usize::from(limit) < bytes.len() {
        return Err(Refusal::DataLong);
    }
    if has_message(m.message.stage) {
        return Err(Refusal::MessageInHand);
    }
    let length = put_stx(q.preamble, h, bytes, frame);
    Ok(with_message(m, h, length))
}

// A host's request, on a link with this data limit: its STX is put into the lent frame buffer, or it is refused and the buffer stays as it was.
#[tactic(auto, using(base::proofs::Choices::choices, crate::proofs::Requests::fields, crate::proofs::Requests::fitting), unfolding(turns::specs::Master::requested))]
pub fn request(
    limit: u8,
    m: Master,
    q: Request,
    bytes: &[u8],
    frame: &mut [u8; 284],
) -> Result<Master, Refusal>
    ensures { RequestIs limit m q bytes.now frame.old result frame.new }
{
    if base::outside(q.preamble, 5, 20) {
        return Err(Refusal::PreambleLength);
    }
    if base::outside(usize::from(q.revision), 3, 7) {
        return Err(Refusal::Revision);
    }
    request_up_to(limit, polling_up_to(q.revision), m, q, bytes, frame)
}

fn stays_silent(m: Master) -> MasterSent
    ensures { result ≡ sends_nothing m }
{
    MasterSent {
        master: Master { deaf: false, ..m },
        sent: Sent::Silent,
    }
}

// One more attempt, while there are at most R.
fn one_more(retries: u8, attempts: u16) -> u16
    ensures { result ≡ one_more retries attempts }
{
    if attempts <= u16::from(retries) {
        attempts + 1
    } else {
        attempts
    }
}

// A character of the STX, with the timer and the stage after it.
fn sends_character(m: Master, t: Timer, stage: Stage, attempts: u16, c: u8) -> MasterSent
    ensures { result ≡ sends_character m t stage attempts c }
{
    MasterSent {
        master: Master {
            receiver: line_reader::passing_reader(),
            deaf: true,
            timer: t,
            message: Message {
                stage,
                attempts,
                ..m.message
            },
            ..m
        },
        sent: Sent::Character(c),
    }
}

// The character with this number of the STX.
fn sends_at(m: Master, frame: &[u8; 284], n: u16, attempts: u16) -> MasterSent
    ensures { result ≡ sends_at m frame.now n attempts }
{
    let c = party::character_at(frame, n);
    if u32::from(n) + 1 < u32::from(m.message.length) {
        sends_character(
            m,
            master_rules::timer_of(0),
            Stage::Sending(n + 1),
            attempts,
            c,
        )
    } else {
        sends_character(
            m,
            master_rules::broken_timer(m),
            Stage::Awaiting(master_rules::own_rt1(m)),
            attempts,
            c,
        )
    }
}

// Sends a character of the STX that stands in the lent frame buffer, or none.
#[tactic(auto, using(base::proofs::Choices::choices), unfolding(turns::specs::Master::master_sends))]
pub fn send(m: Master, frame: &[u8; 284]) -> MasterSent
    ensures { result ≡ master_sends m frame.now }
{
    match m.message.stage {
        // a waiting message begins where a window is open
        Stage::Waiting if 0 < m.timer.window => {
            sends_at(m, frame, 0, one_more(m.retries, m.message.attempts))
        }
        Stage::Sending(n) => sends_at(m, frame, n, m.message.attempts),
        _ => stays_silent(m),
    }
}

fn no_message() -> Message
    ensures { result ≡ no_message }
{
    Message {
        header: Header {
            kind: 0,
            long: false,
            primary: false,
            burst: false,
            address: 0,
            command: 0,
        },
        stage: Stage::Free,
        length: 0,
        attempts: 0,
    }
}

// A master that hears nothing in its first tick, with no message.
pub fn fresh_master(p: Profile, primary: bool, retries: u8) -> Master
    ensures { result ≡ fresh_master p primary retries }
{
    Master {
        primary,
        profile: p,
        retries,
        receiver: line_reader::passing_reader(),
        deaf: true,
        burst: false,
        noted: Noted {
            long: false,
            address: 0,
        },
        timer: master_rules::timer_of(u32::from(master_rules::rt1_of(p, primary))),
        message: no_message(),
    }
}

// A fresh master, or refusal 2.
pub fn start(profile: Profile, primary: bool, retries: u8) -> Result<Master, Refusal>
    ensures { called_as result ≡ master_starts profile primary retries }
{
    if base::outside(usize::from(retries), 3, 15) {
        Err(Refusal::BadRetries)
    } else {
        Ok(fresh_master(profile, primary, retries))
    }
}

// Takes its host's call, if there is one. Limit, data and frame come as they were lent to `tick`: a struct would be made for this one call.
#[tactic(auto, using(crate::proofs::Ticks::ticks))]
fn take_call(
    limit: u8,
    m: Master,
    call: Option<Request>,
    put: &[u8],
    frame: &mut [u8; 284],
) -> MasterCallTaken
    ensures { MasterCalledIs limit m call put.now frame.old result frame.new }
{
    let Some(q) = call else {
        return MasterCallTaken {
            master: m,
            result: CallResult::Nothing,
        };
    };
    match request(limit, m, q, put, frame) {
        Ok(master) => MasterCallTaken {
            master,
            result: CallResult::Taken,
        },
        Err(why) => MasterCallTaken {
            master: m,
            result: CallResult::Refused(why.number()),
        },
    }
}

// A tick, on a link with this data limit. Lent are the data of a request, the buffer that holds the master's STX and the one for the data of the frame that it hears.
pub fn tick(
    limit: u8,
    m: Master,
    heard: Heard,
    call: Option<Request>,
    put: &[u8],
    frame: &mut [u8; 284],
    bytes: &mut [u8; 255],
) -> MasterTicked
    ensures { MasterTickIs limit m heard call put.now frame.old bytes.old result frame.new bytes.new }
{
    let taken = hears::take(m, heard, bytes);
    let called = take_call(limit, taken.master, call, put, frame);
    let sends = send(called.master, frame);
    MasterTicked {
        master: sends.master,
        sent: sends.sent,
        told: taken.told,
        event: taken.event,
        result: called.result,
    }
}
