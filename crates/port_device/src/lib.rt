// A device of the infrared port: its start, how it listens and dozes, its host's answers, and its tick. The functions follow the definitions of crates/port/specs/Device.antt, in their order.
#![tactic(auto, using(base::proofs::Choices::choices))]

ghost use Rattle.std.specs.Prelude.{◌≡◌, true, false};
ghost use Rattle.line.specs.Reader.{blank};
ghost use Rattle.port.specs.Numbers.{sto_of};
ghost use Rattle.port.specs.Device.{is_undamaged, is_other, both_undamaged, alternate, wakes, quiet_after, unless_quiet, device_took, listens_on, unread, passed_over, with_receiver, passes_on, dozes_on, hears_wake_up, counted_as, reads, drops_request, past_sto, too_late, quiet_sending, port_device_sends, port_device_starts};
ghost use Rattle.port_device.specs.Calls.{PortAnswerIs};
ghost use Rattle.port_device.specs.Ticks.{PortDeviceTickIs};
ghost use Rattle.port_device.specs.Parts.{AwakeIs, PortTakeIs, PortCalledIs};
ghost use Rattle.base.specs.Refusal.{called_as};

use base::Refusal;
use line::{Event, Heard, Place, Profile, Receiver, Whole};
use port::{Ear, PortDevice, PortDeviceSent, PortDeviceTaken};
use turns::{CallResult, Device, DeviceTaken, DeviceTold, Sent, Turn, Wish};

// STO of every other command; a request stays in hand for so long.
const LONGEST_STO: u16 = 87;

// A device after its host's call. The master's is a struct of its own: one generic for both would be no plainer than these two fields.
#[derive(Clone, Copy)]
struct PortCallTaken {
    device: PortDevice,
    result: CallResult,
}

// A device after a tick, what it sends, and what it tells its host.
#[derive(Clone, Copy)]
pub struct PortDeviceTicked {
    pub device: PortDevice,
    pub sent: Sent,
    pub told: DeviceTold,
    pub event: Event,
    pub result: CallResult,
}

// Whether this character was heard, undamaged.
fn is_undamaged(c: u8, heard: Heard) -> bool
    ensures { result ≡ is_undamaged c heard }
{
    matches!(heard, Heard::Character(e) if e == c)
}

// Whether a character other than 0xFF was heard, damaged or not.
fn is_other(heard: Heard) -> bool
    ensures { result ≡ is_other heard }
{
    match heard {
        Heard::Silence => false,
        Heard::Character(c) | Heard::Damaged(c, _) => c != 0xFF,
    }
}

fn both_undamaged(c: u8, e: u8, a: Heard, b: Heard) -> bool
    ensures { result ≡ both_undamaged c e a b }
{
    is_undamaged(c, a) && is_undamaged(e, b)
}

// Whether three wake-up bytes alternate.
fn alternates(a: Heard, b: Heard, heard: Heard) -> bool
    ensures { result ≡ alternate a b heard }
{
    if both_undamaged(0x00, 0xFF, a, b) {
        is_undamaged(0x00, heard)
    } else {
        both_undamaged(0xFF, 0x00, a, b) && is_undamaged(0xFF, heard)
    }
}

// Whether a dozing device wakes.
fn wakes_up(a: Heard, b: Heard, heard: Heard) -> bool
    ensures { result ≡ wakes a b heard }
{
    alternates(a, b, heard) || is_other(b) && is_other(heard)
}

// The quiet ticks after what was heard.
fn quiet_after(n: u16, heard: Heard) -> u16
    ensures { result ≡ quiet_after n heard }
{
    match heard {
        Heard::Silence if n < port::DOZE_TICKS => n + 1,
        Heard::Silence => n,
        _ => 0,
    }
}

// How the device listens, unless it begins to doze.
fn unless_quiet(quiet: u16, ear: Ear) -> Ear
    ensures { result ≡ unless_quiet quiet ear }
{
    if port::DOZE_TICKS <= quiet {
        Ear::Dozes(Heard::Silence, Heard::Silence)
    } else {
        ear
    }
}

// A device after what was heard, which then listens in this manner.
fn took(y: PortDevice, heard: Heard, ear: Ear, t: DeviceTaken) -> PortDeviceTaken
    ensures { result ≡ device_took y heard ear t }
{
    PortDeviceTaken {
        device: PortDevice {
            device: t.device,
            ear,
            quiet: quiet_after(y.quiet, heard),
        },
        told: t.told,
        event: t.event,
    }
}

// The same for a device that was not dozing.
fn listens_on(y: PortDevice, heard: Heard, ear: Ear, t: DeviceTaken) -> PortDeviceTaken
    ensures { result ≡ listens_on y heard ear t }
{
    let quiet = quiet_after(y.quiet, heard);
    took(y, heard, unless_quiet(quiet, ear), t)
}

// Nothing is read.
fn not_read(d: Device, event: Event) -> DeviceTaken
    ensures { result ≡ unread d event }
{
    DeviceTaken {
        device: d,
        told: DeviceTold::Nothing,
        event,
    }
}

// What is told of a tick in which characters are passed over.
fn passed_over(heard: Heard) -> Event
    ensures { result ≡ passed_over heard }
{
    match heard {
        Heard::Silence => Event::Nothing,
        _ => Event::PassedOver,
    }
}

// The same device with a reader that has heard two 0xFF.
fn behind_two(d: Device) -> Device
    ensures { result ≡ with_receiver d (blank (Place.Preamble 2)) }
{
    let receiver = Receiver {
        place: Place::Preamble(2),
        ..line_reader::idle_reader()
    };
    Device { receiver, ..d }
}

// A device that passes over characters.
fn pass_on(y: PortDevice, heard: Heard, before: bool) -> PortDeviceTaken
    ensures { result ≡ passes_on y heard before }
{
    let ones = is_undamaged(0xFF, heard);
    if ones && before {
        let next = not_read(behind_two(y.device), Event::Nothing);
        listens_on(y, heard, Ear::Awake, next)
    } else {
        let next = not_read(y.device, passed_over(heard));
        listens_on(y, heard, Ear::PassesOver(ones), next)
    }
}

// A device that dozes.
fn doze_on(y: PortDevice, heard: Heard, a: Heard, b: Heard) -> PortDeviceTaken
    ensures { result ≡ dozes_on y heard a b }
{
    let ear = if wakes_up(a, b, heard) {
        Ear::PassesOver(false)
    } else {
        Ear::Dozes(b, heard)
    };
    took(y, heard, ear, not_read(y.device, Event::Nothing))
}

// Whether an awake device hears 0x00 between frames.
fn hears_wake_up(d: Device, heard: Heard) -> bool
    ensures { result ≡ hears_wake_up d heard }
{
    matches!(d.receiver.place, Place::Idle) && is_undamaged(0x00, heard)
}

// A BACK counts as a damaged frame.
fn counted_as(event: Event) -> Event
    ensures { result ≡ counted_as event }
{
    match event {
        Event::Frame(w) if w.header.kind == frame::BACK => Event::Damaged(w, port::NO_DAMAGE),
        _ => event,
    }
}

// What document 01's device does on what it hears.
fn read(t: DeviceTaken) -> DeviceTaken
    ensures { result ≡ reads t }
{
    DeviceTaken {
        event: counted_as(t.event),
        ..t
    }
}

// The same device without its request.
fn drop_request(d: Device) -> Device
    ensures { result ≡ drops_request d }
{
    Device {
        turn: Turn::Listens,
        wish: Wish::Same,
        ..d
    }
}

// A device that is awake.
fn take_awake(
    y: PortDevice,
    heard: Heard,
    bytes: &mut [u8; 255],
    frame: &mut [u8; 284],
) -> PortDeviceTaken
    ensures { AwakeIs y heard bytes.old frame.old result bytes.new frame.new }
{
    if hears_wake_up(y.device, heard) {
        let next = not_read(drop_request(y.device), passed_over(heard));
        listens_on(y, heard, Ear::PassesOver(false), next)
    } else {
        let next = read(device::take(y.device, heard, bytes, frame));
        listens_on(y, heard, Ear::Awake, next)
    }
}

// A device that hears nothing.
fn hears_nothing(y: PortDevice) -> PortDeviceTaken
    ensures { result ≡ record { device = y; told = DeviceTold.Nothing; event = Event.Nothing } }
{
    PortDeviceTaken {
        device: y,
        told: DeviceTold::Nothing,
        event: Event::Nothing,
    }
}

// Takes what was heard. The data of the frame being heard are in the lent data buffer, and an error answer is put into the lent frame buffer.
fn take(
    y: PortDevice,
    heard: Heard,
    bytes: &mut [u8; 255],
    frame: &mut [u8; 284],
) -> PortDeviceTaken
    ensures { PortTakeIs y heard bytes.old frame.old result bytes.new frame.new }
{
    if y.device.deaf {
        return hears_nothing(y);
    }
    match y.ear {
        Ear::Awake => take_awake(y, heard, bytes, frame),
        Ear::PassesOver(before) => pass_on(y, heard, before),
        Ear::Dozes(a, b) => doze_on(y, heard, a, b),
    }
}

// STO of a command.
fn sto_of(command: u8) -> u16
    ensures { result ≡ sto_of command }
{
    match command {
        0 | 11 => port::IDENTITY_STO,
        _ => LONGEST_STO,
    }
}

// Whether a request in hand is past T+STO.
fn past_sto(command: u8, turn: Turn) -> bool
    ensures { result ≡ past_sto command turn }
{
    match turn {
        Turn::Asked(n) => u32::from(n) + u32::from(sto_of(command)) <= u32::from(LONGEST_STO),
        _ => false,
    }
}

// Whether an answer is past T+STO.
fn too_late(d: Device) -> bool
    ensures { result ≡ too_late d }
{
    past_sto(d.request.command, d.turn)
}

// Takes the host's answer to the request in hand, or refuses it with 8, 9 or 10 and leaves the lent frame buffer as it was.
fn answer(
    limit: u8,
    d: Device,
    wish: Wish,
    bytes: &[u8],
    frame: &mut [u8; 284],
) -> Result<Device, Refusal>
    ensures { PortAnswerIs limit d wish bytes.now frame.old result frame.new }
{
    if too_late(d) {
        Err(Refusal::NoRequest)
    } else {
        device::answer(limit, d, wish, bytes, frame)
    }
}

#[tactic(auto, using(base::proofs::Choices::choices, crate::proofs::Laws::calls))]
fn take_call(
    limit: u8,
    y: PortDevice,
    call: Option<Wish>,
    put: &[u8],
    frame: &mut [u8; 284],
) -> PortCallTaken
    ensures { PortCalledIs limit y call put.now frame.old result frame.new }
{
    let Some(wish) = call else {
        return PortCallTaken {
            device: y,
            result: CallResult::Nothing,
        };
    };
    match answer(limit, y.device, wish, put, frame) {
        Ok(device) => PortCallTaken {
            device: PortDevice { device, ..y },
            result: CallResult::Taken,
        },
        Err(why) => PortCallTaken {
            device: y,
            result: CallResult::Refused(why.number()),
        },
    }
}

// The quiet ticks after what was sent.
fn quiet_sending(n: u16, sent: Sent) -> u16
    ensures { result ≡ quiet_sending n sent }
{
    match sent {
        Sent::Silent => n,
        Sent::Character(_) => 0,
    }
}

// Sends a character of the ACK in the lent frame buffer, or none.
#[tactic(auto, using(base::proofs::Choices::choices), unfolding(port::specs::Device::port_device_sends))]
fn send(y: PortDevice, frame: &[u8; 284]) -> PortDeviceSent
    ensures { result ≡ port_device_sends y frame.now }
{
    let s = device::sends_by(y.device, frame);
    PortDeviceSent {
        device: PortDevice {
            device: s.device,
            quiet: quiet_sending(y.quiet, s.sent),
            ..y
        },
        sent: s.sent,
    }
}

// A device of these addresses, or refusal 3 or 4.
pub fn start(preamble: usize, polling: u8, unique: u64) -> Result<PortDevice, Refusal>
    ensures { called_as result ≡ port_device_starts preamble polling unique }
{
    if preamble != port::PREAMBLE {
        return Err(Refusal::PreambleLength);
    }
    let device = device::start(Profile::infrared(), preamble, polling, unique)?;
    Ok(PortDevice {
        device,
        ear: Ear::Awake,
        quiet: 0,
    })
}

// A tick, where data are at most the limit. Lent are the data of an answer, the buffer that holds the device's ACK and the one for the data of the frame that it hears.
pub fn tick(
    limit: u8,
    y: PortDevice,
    heard: Heard,
    call: Option<Wish>,
    put: &[u8],
    frame: &mut [u8; 284],
    bytes: &mut [u8; 255],
) -> PortDeviceTicked
    ensures { PortDeviceTickIs limit y heard call put.now frame.old bytes.old result
        frame.new bytes.new }
{
    let t = take(y, heard, bytes, frame);
    let c = take_call(limit, t.device, call, put, frame);
    let s = send(c.device, frame);
    PortDeviceTicked {
        device: s.device,
        sent: s.sent,
        told: t.told,
        event: t.event,
        result: c.result,
    }
}
