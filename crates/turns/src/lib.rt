// What master and device hold from tick to tick, and what they tell their hosts. The rules by which they change are the definitions in specs/. The fields' order is chosen for speed: docs/BENCHMARKS.md, "Master and device".
#![tactic(auto)]

use frame::Header;
use line::{Event, Profile, Receiver, Whole};

// What a party sends in a tick.
#[derive(Clone, Copy)]
pub enum Sent {
    Silent,
    Character(u8),
}

// A host's request, without its data. Item 2: "A master request now says the device's revision, 3 to 7."
#[derive(Clone, Copy)]
pub struct Request {
    pub preamble: usize,
    pub address: u64,
    pub long: bool,
    pub command: u8,
    pub revision: u8,
}

// What became of a host's call in a tick: there was none, it was taken, or it was refused with this number of document 01's table.
#[derive(Clone, Copy)]
pub enum CallResult {
    Nothing,
    Taken,
    Refused(u32),
}

// A master's timers, in silent line ticks. 0 is a timer that does not run.
#[derive(Clone, Copy)]
pub struct Timer {
    // until the next window opens
    pub next: u32,
    // left of the open window
    pub window: u32,
    // left of the quiet time, while BURST is set
    pub quiet: u32,
}

// What a master does for its message.
#[derive(Clone, Copy)]
pub enum Stage {
    // no message in hand
    Free,
    // the message, or a retry of it, waits for a window
    Waiting,
    // its STX is being sent; this character is next
    Sending(u16),
    // its STX was sent; so many silent ticks are left for the ACK
    Awaiting(u16),
}

// A master's message: its STX stands in the lent frame buffer.
#[derive(Clone, Copy)]
pub struct Message {
    pub header: Header,
    pub stage: Stage,
    // how many characters its STX has
    pub length: u16,
    // how many STX frames were begun for it
    pub attempts: u16,
}

// The address that BURST was set by.
#[derive(Clone, Copy)]
pub struct Noted {
    pub address: u64,
    pub long: bool,
}

#[derive(Clone, Copy)]
pub struct Master {
    pub profile: Profile,
    pub primary: bool,
    // retries after the first attempt
    pub retries: u8,
    // it sent in the tick before, or is fresh, and hears nothing in this one
    pub deaf: bool,
    // BURST
    pub burst: bool,
    pub timer: Timer,
    pub receiver: Receiver,
    pub noted: Noted,
    pub message: Message,
}

// What a master tells its host of its message.
#[derive(Clone, Copy)]
pub enum MasterTold {
    Nothing,
    // answered with this ACK, whose data are in the lent data buffer
    Answered(Whole),
    // given up after so many STX frames
    GivenUp(u16),
    // a broadcast, sent once
    BroadcastSent,
}

// What became of a master's message, and what its host is told.
#[derive(Clone, Copy)]
pub struct Ending {
    pub message: Message,
    pub told: MasterTold,
}

// A master after what it heard, and what it tells.
#[derive(Clone, Copy)]
pub struct MasterTaken {
    pub master: Master,
    pub told: MasterTold,
    pub event: Event,
}

// A master after a tick, and what it sends.
#[derive(Clone, Copy)]
pub struct MasterSent {
    pub master: Master,
    pub sent: Sent,
}

// A host's wish for burst mode, given with an answer.
#[derive(Clone, Copy)]
pub enum Wish {
    Same,
    On,
    Off,
}

// What a device does.
#[derive(Clone, Copy)]
pub enum Turn {
    Listens,
    // a request is in hand, for so many more ticks, this one included
    Asked(u16),
    // an answer was taken in the tick that told the request, or is an error answer: it begins in the next tick
    AnswerWaits,
    // an answer begins in this tick
    Begins,
    // its ACK is being sent; this character is next
    Answers(u16),
    // a BACK begins in this tick
    Follows,
    // its BACK is being sent; this character is next
    Bursts(u16),
}

// What the host gave for BACKs; the data stand in the lent content buffer. No Option: each of the three is a word of a device in C.
#[derive(Clone, Copy)]
pub struct Content {
    pub given: bool,
    pub command: u8,
    pub count: u8,
}

#[derive(Clone, Copy)]
pub struct Device {
    pub unique: u64,
    pub receiver: Receiver,
    // the request in hand, or the one that is being answered
    pub request: Header,
    pub profile: Profile,
    // how many characters the frame in the lent frame buffer has
    pub length: u16,
    // silent line ticks until a bursting device's next BACK; 0 where no timer runs
    pub due: u32,
    pub turn: Turn,
    pub preamble: u8,
    pub polling: u8,
    // it sent in the tick before, or is fresh, and hears nothing in this one
    pub deaf: bool,
    pub wish: Wish,
    // burst mode is on
    pub burst: bool,
    // the next BACK is for the primary
    pub primary: bool,
    pub content: Content,
}

// What a device tells its host.
#[derive(Clone, Copy)]
pub enum DeviceTold {
    Nothing,
    // a request, which it may answer
    Request(Whole),
    // a broadcast of another command than 11, never answered
    Broadcast(Whole),
}

// What a character does to a device's turn, and what its host is told.
#[derive(Clone, Copy)]
pub struct Change {
    pub turn: Turn,
    pub request: Header,
    pub length: u16,
    pub told: DeviceTold,
}

#[derive(Clone, Copy)]
pub struct DeviceTaken {
    pub device: Device,
    pub told: DeviceTold,
    pub event: Event,
}

#[derive(Clone, Copy)]
pub struct DeviceSent {
    pub device: Device,
    pub sent: Sent,
}
