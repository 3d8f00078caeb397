// A master and a device behind a modem chip. In a tick the chip takes what the line carried, the driver reads the registers, the party has its tick, the driver writes what it sends, and the tick ends.
#![tactic(auto)]

ghost use Rattle.std.specs.Prelude.{◌≡◌};
ghost use Rattle.modem_party.specs.Behind.{says};
ghost use Rattle.modem_party.specs.Ticks.{MasterTicks, DeviceTicks};

use device_tick::DeviceTicked;
use master::MasterTicked;
use modem::{Carried, Chip, TickEnded};
use turns::{Device, Master, Request, Sent};

// A chip, and what the line carried in the tick before.
#[derive(Clone, Copy)]
pub struct Arrival {
    pub chip: Chip,
    pub carried: Carried,
}

// A master after a tick, and its chip with what goes out.
#[derive(Clone, Copy)]
pub struct MasterBehind {
    pub ticked: MasterTicked,
    pub ended: TickEnded,
}

// A device after a tick, and its chip with what goes out.
#[derive(Clone, Copy)]
pub struct DeviceBehind {
    pub ticked: DeviceTicked,
    pub ended: TickEnded,
}

// What the driver does with what a party sends.
fn say(x: Chip, sent: Sent) -> Chip
    ensures { result ≡ says x sent }
{
    match sent {
        Sent::Silent => modem::stay_silent(x),
        Sent::Character(c) => modem::transmit(x, c),
    }
}

// A tick of a master behind a chip, on a link with this data limit. Lent is what a master's tick is lent.
pub fn master_tick(
    limit: u8,
    arrival: Arrival,
    m: Master,
    call: Option<Request>,
    put: &[u8],
    frame: &mut [u8; 284],
    bytes: &mut [u8; 255],
) -> MasterBehind
    ensures { MasterTicks limit arrival.chip arrival.carried m call put.now frame bytes result }
{
    let h = modem::hear(modem::arrive(arrival.chip, arrival.carried));
    let ticked = master::tick(limit, m, h.heard, call, put, frame, bytes);
    let ended = modem::end_tick(say(h.chip, ticked.sent));
    MasterBehind { ticked, ended }
}

// A tick of a device behind a chip, on a link with this data limit. Lent is what a device's tick is lent.
pub fn device_tick(
    limit: u8,
    arrival: Arrival,
    d: Device,
    call: device_tick::DeviceCall,
    put: &[u8],
    contents: &mut [u8; 255],
    frame: &mut [u8; 284],
    bytes: &mut [u8; 255],
) -> DeviceBehind
    ensures { DeviceTicks limit arrival.chip arrival.carried d call put.now frame bytes contents result }
{
    let h = modem::hear(modem::arrive(arrival.chip, arrival.carried));
    let ticked = device_tick::tick(limit, d, h.heard, call, put, contents, frame, bytes);
    let ended = modem::end_tick(say(h.chip, ticked.sent));
    DeviceBehind { ticked, ended }
}
