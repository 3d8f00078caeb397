// The infrared port of document 02, item 13: what its master and its devices hold from tick to tick. The rules by which they change are the definitions in specs/.
#![tactic(auto)]

use line::{Event, FrameDamage, Heard};
use turns::{Device, DeviceTold, Master, MasterTold, Sent};

// The quiet ticks after which a device dozes, and the ticks after an answer in which no wake-up is needed.
pub const DOZE_TICKS: u16 = 20946;

// The characters of a wake-up.
pub const WAKE_UP_LENGTH: u16 = 358;

// The preamble of every frame that is sent.
pub const PREAMBLE: usize = 5;

// STO of commands 0 and 11.
pub const IDENTITY_STO: u16 = 52;

// The damage of a frame that has none: a BACK is told as damaged with it.
pub const NO_DAMAGE: FrameDamage = FrameDamage {
    parity: false,
    overrun: false,
    framing: false,
    address: false,
    check: false,
};

// A master of the port.
#[derive(Clone, Copy)]
pub struct PortMaster {
    pub master: Master,
    // ticks since an answer's last character, this one included; 20,947 where there are more, and where none was heard
    // (a number and no Option, since the definition `since_after` counts it and programs in C hold it as a word)
    pub since: u16,
    pub wake: Option<u16>,
}

// A master after what it heard, and what it tells. It and the three like it are no generics of those in turns, since the definitions in specs/ name each.
#[derive(Clone, Copy)]
pub struct PortMasterTaken {
    pub master: PortMaster,
    pub told: MasterTold,
    pub event: Event,
}

// A master after a tick, and what it sends.
#[derive(Clone, Copy)]
pub struct PortMasterSent {
    pub master: PortMaster,
    pub sent: Sent,
}

// How a device listens.
#[derive(Clone, Copy)]
pub enum Ear {
    // its reader reads
    Awake,
    // it passes over characters until two 0xFF in successive ticks; whether one was heard in the tick before
    PassesOver(bool),
    // it dozes, with what was heard in the two ticks before, the last one second
    Dozes(Heard, Heard),
}

// A device of the port.
#[derive(Clone, Copy)]
pub struct PortDevice {
    pub device: Device,
    pub ear: Ear,
    // quiet ticks since the last character that it heard or sent, counted up to 20,946
    pub quiet: u16,
}

// A device after what it heard, and what it tells.
#[derive(Clone, Copy)]
pub struct PortDeviceTaken {
    pub device: PortDevice,
    pub told: DeviceTold,
    pub event: Event,
}

// A device after a tick, and what it sends.
#[derive(Clone, Copy)]
pub struct PortDeviceSent {
    pub device: PortDevice,
    pub sent: Sent,
}
