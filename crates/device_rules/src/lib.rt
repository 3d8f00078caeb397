// What a device does after what it heard. The functions follow the definitions of crates/turns/specs/Device.antt, in their order.
#![tactic(auto, using(base::proofs::Choices::choices))]

ghost use Rattle.std.specs.Prelude.{◌≡◌, false};
ghost use Rattle.base.specs.Choice.{when◌then◌else◌};
ghost use Rattle.line.specs.Reader.{gapped, taken};
ghost use Rattle.line.specs.declared.Heard.TheVariants.{Silence};
ghost use Rattle.turns.specs.Device.{device_with, is_own, may_answer, ended_by, due_after, has_error, tells, listens_on, after_request, after_frame, after_damage, after_character, on_character, waited, back_due, next_turn, counts, broken_due, on_silence};
ghost use Rattle.device_rules.specs.Hearing.{length_by, HeardIs};

use frame::Header;
use line::{Event, FrameDamage, Heard, Receiver, Whole};
use turns::{Change, Device, DeviceTaken, DeviceTold, Turn, Wish};

// Whether a request is for this device: to its unique address, or with command 0 to its polling address.
fn is_own(d: Device, h: Header) -> bool
    ensures { result ≡ is_own d h }
{
    if h.long {
        d.unique == h.address
    } else {
        u64::from(d.polling) == h.address && h.command == 0
    }
}

// The silent ticks before the next BACK, after an undamaged frame of another party.
fn due_after_frame(d: Device, w: Whole) -> u32
    ensures { result ≡ due_after d.profile (ended_by (Event.Frame w)) }
{
    if w.header.kind == frame::ACK {
        1
    } else {
        u32::from(d.profile.rt1p)
    }
}

// The silent ticks before the next BACK, after a character.
fn due_after(d: Device, event: Event) -> u32
    ensures { result ≡ due_after d.profile (ended_by event) }
{
    match event {
        Event::Nothing => 0,
        Event::Frame(w) => due_after_frame(d, w),
        Event::PassedOver | Event::Broken | Event::Damaged(..) => u32::from(d.profile.rt1p),
    }
}

// How many characters a frame has.
pub fn frame_length(preamble: u8, long: bool, count: u8) -> u16
    ensures { result ≡ length_by preamble long count }
{
    let header: u16 = if long { 8 } else { 4 };
    u16::from(preamble) + header + u16::from(count) + 1
}

// Whether a damaged frame is answered without the host.
pub fn has_error(d: Device, w: Whole, m: FrameDamage) -> bool
    ensures { result ≡ has_error d w m }
{
    w.header.kind == frame::STX && w.expansion == 0 && has_own_address(d, w.header, m)
}

fn has_own_address(d: Device, h: Header, m: FrameDamage) -> bool
    ensures { result ≡ (when m.address then false else is_own d h) }
{
    !m.address && is_own(d, h)
}

// A device with nothing in hand.
fn listens(d: Device, told: DeviceTold) -> Change
    ensures { result ≡ listens_on d told }
{
    Change {
        turn: Turn::Listens,
        request: d.request,
        length: d.length,
        told,
    }
}

// Whether its host may answer an STX: one for this device, or command 11 by broadcast.
fn may_answer(d: Device, h: Header) -> bool
    ensures { result ≡ may_answer d h }
{
    party::seeks_tag(h) || is_own(d, h)
}

// An undamaged STX without expansion bytes: a request that its host may answer, another broadcast, or a request for another device.
fn after_request(d: Device, w: Whole) -> Change
    ensures { result ≡ after_request d w }
{
    if may_answer(d, w.header) {
        Change {
            turn: Turn::Asked(d.profile.sto),
            request: w.header,
            length: d.length,
            told: DeviceTold::Request(w),
        }
    } else if party::is_broadcast(w.header) {
        listens(d, DeviceTold::Broadcast(w))
    } else {
        listens(d, DeviceTold::Nothing)
    }
}

// An undamaged frame.
fn after_frame(d: Device, w: Whole) -> Change
    ensures { result ≡ after_frame d w }
{
    if w.header.kind == frame::STX && w.expansion == 0 {
        after_request(d, w)
    } else {
        listens(d, DeviceTold::Nothing)
    }
}

// A damaged frame.
fn after_damage(d: Device, w: Whole, m: FrameDamage) -> Change
    ensures { result ≡ after_damage d w m }
{
    if has_error(d, w, m) {
        Change {
            turn: Turn::AnswerWaits,
            request: w.header,
            length: frame_length(d.preamble, w.header.long, 2),
            told: DeviceTold::Nothing,
        }
    } else {
        listens(d, DeviceTold::Nothing)
    }
}

// A character, by what the reader tells.
fn after_character(d: Device, event: Event) -> Change
    ensures { result ≡ after_character d event }
{
    match event {
        Event::Frame(w) => after_frame(d, w),
        Event::Damaged(w, m) => after_damage(d, w, m),
        Event::Nothing | Event::PassedOver | Event::Broken => listens(d, DeviceTold::Nothing),
    }
}

// After a character.
fn on_character(d: Device, r: Receiver, event: Event) -> DeviceTaken
    ensures { result ≡ on_character d r event }
{
    let c = after_character(d, event);
    let device = Device {
        receiver: r,
        turn: c.turn,
        request: c.request,
        wish: Wish::Same,
        length: c.length,
        due: due_after(d, event),
        ..d
    };
    DeviceTaken {
        device,
        told: c.told,
        event,
    }
}

// The turn after a silent tick.
fn waits(turn: Turn) -> Turn
    ensures { result ≡ waited turn }
{
    match turn {
        Turn::Asked(n) => waits_for_answer(n),
        Turn::AnswerWaits => Turn::Begins,
        _ => turn,
    }
}

// A request in hand for so many ticks, after one of them.
fn waits_for_answer(n: u16) -> Turn
    ensures { result ≡ waited (Turn.Asked n) }
{
    if n <= 1 {
        Turn::Listens
    } else {
        Turn::Asked(n - 1)
    }
}

// Whether a BACK begins.
fn back_due(d: Device, due: u32) -> bool
    ensures { result ≡ back_due d due }
{
    d.burst && due == 1
}

// The turn after a silent tick: a BACK begins where its timer ends.
fn next_turn(d: Device, due: u32) -> Turn
    ensures { result ≡ next_turn d due }
{
    if back_due(d, due) {
        Turn::Follows
    } else {
        waits(d.turn)
    }
}

// A silent tick.
fn count_tick(d: Device, r: Receiver, due: u32, event: Event) -> DeviceTaken
    ensures { result ≡ counts d r due event }
{
    let device = Device {
        receiver: r,
        turn: next_turn(d, due),
        due: party::one_less(due),
        ..d
    };
    DeviceTaken {
        device,
        told: DeviceTold::Nothing,
        event,
    }
}

// The ticks before the next BACK after a frame that broke, before its second silent tick is counted.
fn broken_due(d: Device) -> u32
    ensures { result ≡ broken_due d }
{
    party::one_less(u32::from(d.profile.rt1p))
}

// A silent tick inside a frame that is passed over.
fn passed_over(d: Device) -> DeviceTaken
    ensures { result ≡ tells (device_with d (gapped d.receiver) d.turn d.request d.wish d.length d.due) DeviceTold.Nothing Event.Nothing }
{
    let device = Device {
        receiver: line_reader::gapped_reader(d.receiver),
        ..d
    };
    hears_nothing(device)
}

// A device that hears nothing.
fn hears_nothing(d: Device) -> DeviceTaken
    ensures { result ≡ tells d DeviceTold.Nothing Event.Nothing }
{
    DeviceTaken {
        device: d,
        told: DeviceTold::Nothing,
        event: Event::Nothing,
    }
}

// Hears silence. The second silent tick in a row inside a frame breaks it, and both count.
fn hears_silence(d: Device) -> DeviceTaken
    ensures { result ≡ on_silence d (taken d.receiver Silence).receiver }
{
    if !line_reader::is_inside(d.receiver.place) {
        count_tick(d, line_reader::idle_reader(), d.due, Event::Nothing)
    } else if d.receiver.gap {
        count_tick(d, line_reader::idle_reader(), broken_due(d), Event::Broken)
    } else {
        passed_over(d)
    }
}

// Takes what was heard: returns the device after it, and what it tells its host. The data of the frame being heard are in the lent data buffer.
pub fn take(d: Device, heard: Heard, bytes: &mut [u8; 255]) -> DeviceTaken
    ensures { HeardIs d heard bytes.old result bytes.new }
{
    if d.deaf {
        hears_nothing(d)
    } else if party::is_silence(heard) {
        hears_silence(d)
    } else {
        let t = line_reader::take(d.receiver, heard, bytes);
        on_character(d, t.receiver, t.event)
    }
}
