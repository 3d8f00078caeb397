// The line: what is heard in a tick, the profiles, and what the tick reader holds and tells.
#![tactic(auto, using(base::proofs::Choices::choices))]

ghost use Rattle.std.specs.Prelude.{◌≡◌};
ghost use Rattle.line.specs.Heard.{heard_of};
ghost use Rattle.line.specs.Told.{event_number};
ghost use Rattle.line.specs.Profile.{fsk_profile, c8psk_profile, infrared_profile, value_refused, order_refused, profile_made};
ghost use Rattle.base.specs.Refusal.{called_as};

use base::Refusal;
use frame::Header;

// How a character was damaged.
#[derive(Clone, Copy)]
pub enum Damage {
    Parity,
    Overrun,
    Framing,
}

// What a party hears in a tick.
#[derive(Clone, Copy)]
pub enum Heard {
    Silence,
    Character(u8),
    Damaged(u8, Damage),
}

// The five numbers of a profile, in ticks.
#[derive(Clone, Copy)]
pub struct Profile {
    // slave time-out
    pub sto: u16,
    // how long a window is
    pub hold: u16,
    // link grant time
    pub rt2: u16,
    // link quiet time, primary and secondary
    pub rt1p: u16,
    pub rt1s: u16,
}

// Where the tick reader stands.
#[derive(Clone, Copy, PartialEq, Eq)]
pub enum Place {
    // passes over characters until a silent tick
    Passing,
    // before a frame
    Idle,
    // after so many 0xFF; 2 stands for two or more
    Preamble(u8),
    // at the first address byte
    First,
    // at another address byte, with so many to come
    Address(u8),
    // at an expansion byte, with so many to come
    Expansion(u8),
    Command,
    Count,
    // at the data byte with this number
    Data(u8),
    Check,
}

// What is wrong with a frame: damage in command, data or check byte by its kind, a wrong check byte, damage in address or expansion bytes.
#[derive(Clone, Copy, PartialEq, Eq)]
pub struct FrameDamage {
    pub parity: bool,
    pub overrun: bool,
    pub framing: bool,
    pub address: bool,
    pub check: bool,
}

// What the tick reader holds from tick to tick: its place, and what it has heard of the frame so far.
#[derive(Clone, Copy, PartialEq, Eq)]
pub struct Receiver {
    pub header: Header,
    pub place: Place,
    pub expansion: u8,
    pub count: u8,
    // the exclusive-or of the characters from the delimiter on
    pub sum: u8,
    pub damage: FrameDamage,
    // one silent tick inside the frame has just been passed over
    pub gap: bool,
}

// A frame that was heard to its end; its data are the first count bytes of the lent buffer.
#[derive(Clone, Copy)]
pub struct Whole {
    pub header: Header,
    pub expansion: u8,
    pub count: u8,
}

// What the tick reader tells in a tick.
#[derive(Clone, Copy)]
pub enum Event {
    Nothing,
    // a character that is passed over
    PassedOver,
    // a frame that broke
    Broken,
    // a whole frame
    Frame(Whole),
    // a whole frame that is damaged
    Damaged(Whole, FrameDamage),
}

// The tick reader after a tick, and what it tells.
#[derive(Clone, Copy)]
pub struct Taken {
    pub receiver: Receiver,
    pub event: Event,
}

impl Event {
    // Its number for programs in C.
    pub fn number(self) -> u8
        ensures { result ≡ event_number self }
    {
        match self {
            Event::Nothing => 0,
            Event::PassedOver => 1,
            Event::Broken => 2,
            Event::Frame(_) => 3,
            Event::Damaged(_, _) => 4,
        }
    }
}

// What is heard in a tick, by a kind and a character, as programs in C and recordings tell it: silence, a character, or a damaged one.
pub fn heard_of(kind: u8, c: u8) -> Heard
    ensures { result ≡ heard_of kind c }
{
    match kind {
        1 => Heard::Character(c),
        2 => Heard::Damaged(c, Damage::Parity),
        3 => Heard::Damaged(c, Damage::Overrun),
        4 => Heard::Damaged(c, Damage::Framing),
        _ => Heard::Silence,
    }
}

impl Profile {
    pub fn fsk() -> Self
        ensures { result ≡ fsk_profile }
    {
        Self {
            sto: 28,
            hold: 2,
            rt2: 8,
            rt1p: 33,
            rt1s: 41,
        }
    }

    pub fn c8psk() -> Self
        ensures { result ≡ c8psk_profile }
    {
        Self {
            sto: 32,
            hold: 3,
            rt2: 14,
            rt1p: 42,
            rt1s: 56,
        }
    }

    // The infrared port's profile. The port has one master, so this is no profile of the pair.
    pub fn infrared() -> Self
        ensures { result ≡ infrared_profile }
    {
        Self {
            sto: 87,
            hold: 5,
            rt2: 13,
            rt1p: 456,
            rt1s: 456,
        }
    }
}

// Whether a value is 0 or above 1,000.
fn value_refused(p: Profile) -> bool
    ensures { result ≡ value_refused p }
{
    base::outside(p.sto as usize, 1, 1000)
        || base::outside(p.hold as usize, 1, 1000)
        || base::outside(p.rt2 as usize, 1, 1000)
        || base::outside(p.rt1p as usize, 1, 1000)
        || base::outside(p.rt1s as usize, 1, 1000)
}

// Whether the values are not in the order that they must have.
fn order_refused(p: Profile) -> bool
    ensures { result ≡ order_refused p }
{
    p.rt2 <= p.hold
        || p.rt1p <= p.rt2
        || p.rt1p <= p.sto
        || u32::from(p.rt1s) != u32::from(p.rt1p) + u32::from(p.rt2)
}

impl Profile {
    // A profile of these values, or refusal 1.
    pub fn checked(self) -> Result<Profile, Refusal>
        ensures { called_as result ≡ profile_made self }
    {
        if value_refused(self) || order_refused(self) {
            Err(Refusal::BadProfile)
        } else {
            Ok(self)
        }
    }
}
