// A tick of a device: it takes what was heard, then its host's answer or burst content, then sends a character or none.
#![tactic(auto, using(base::proofs::Choices::choices))]

ghost use Rattle.std.specs.Prelude.{◌≡◌, true, ◌≤◌, length, IfOk};
ghost use Rattle.base.specs.Store.{stored};
ghost use Rattle.frame.specs.Limits.{most_data};
ghost use Rattle.turns.specs.Device.{device_with_content, content_given};
ghost use Rattle.device_tick.specs.Content.{ContentIs};
ghost use Rattle.device_tick.specs.Tick.{host_call_by, uncalled, called_by, DeviceCalledIs, DeviceTickIs};
ghost use Rattle.base.specs.Refusal.{called_as};

use base::Refusal;
use line::{Event, Heard};
use turns::{CallResult, Content, Device, DeviceTold, Sent, Wish};

// A host's call in a tick.
#[derive(Clone, Copy)]
pub enum DeviceCall {
    // none: no Option, since the specs name three cases
    Nothing,
    Answers(Wish),
    // a burst content of this command
    Content(u8),
}

// A host's call by its number: 1 answers, 2 with burst on, 3 with burst off; 4 gives burst content of this command.
pub fn host_call_by(number: u8, command: u8) -> DeviceCall
    ensures { result ≡ host_call_by number command }
{
    match number {
        1 => DeviceCall::Answers(Wish::Same),
        2 => DeviceCall::Answers(Wish::On),
        3 => DeviceCall::Answers(Wish::Off),
        4 => DeviceCall::Content(command),
        _ => DeviceCall::Nothing,
    }
}

// A device after its host's call.
#[derive(Clone, Copy)]
struct DeviceCallTaken {
    device: Device,
    result: CallResult,
}

// A device after a tick, what it sends, and what it tells its host.
#[derive(Clone, Copy)]
pub struct DeviceTicked {
    pub device: Device,
    pub sent: Sent,
    pub told: DeviceTold,
    pub event: Event,
    pub result: CallResult,
}

// The device with this content, and no other change.
fn with_content(d: Device, command: u8, count: u8) -> Device
    ensures { result ≡ device_with_content d (record { given = true; command = command; count = count }) }
{
    let content = Content {
        given: true,
        command,
        count,
    };
    Device { content, ..d }
}

// The device after a burst content of so many data bytes.
#[tactic(auto, using(base::proofs::Choices::choices), unfolding(turns::specs::Device::content_given))]
fn content_by(limit: u8, d: Device, command: u8, count: usize) -> Result<Device, Refusal>
    ensures called { called_as result ≡ content_given limit d command count }
    ensures fits { IfOk result (λ e. count ≤ most_data) }
{
    if command == 254 {
        Err(Refusal::Command)
    } else if base::outside(count, 2, limit as usize) {
        Err(Refusal::DataLength)
    } else {
        Ok(with_content(d, command, count as u8))
    }
}

// Puts the data at the front of the lent content.
#[tactic(auto, using(base::proofs::Choices::choices, base::proofs::Stores::storing))]
fn put_content(bytes: &[u8], contents: &mut [u8])
    requires { (length bytes.now ≤ most_data) × (most_data ≤ length contents.old) }
    ensures { contents.new ≡ stored contents.old 0 bytes.now }
{
    // Byte by byte: copy_from_slice calls memmove here, which a program in C would have to have beside memcpy and memset.
    for (i, byte) in bytes.iter().enumerate() {
        contents[i] = *byte;
    }
}

// Takes the burst content, or refuses it with 5 or 9 and leaves the lent content as it was.
fn content(
    limit: u8,
    d: Device,
    command: u8,
    bytes: &[u8],
    contents: &mut [u8; 255],
) -> Result<Device, Refusal>
    ensures { ContentIs limit d command bytes.now contents.old result contents.new }
{
    let given = content_by(limit, d, command, bytes.len())?;
    put_content(bytes, contents);
    Ok(given)
}

// A device after its host's answer or burst content, by what the call answered.
fn called_by(d: Device, r: Result<Device, Refusal>) -> DeviceCallTaken
    ensures { result ≡ called_by d r }
{
    match r {
        Ok(device) => DeviceCallTaken {
            device,
            result: CallResult::Taken,
        },
        Err(why) => DeviceCallTaken {
            device: d,
            result: CallResult::Refused(why.number()),
        },
    }
}

fn no_call(d: Device) -> DeviceCallTaken
    ensures { result ≡ uncalled d }
{
    DeviceCallTaken {
        device: d,
        result: CallResult::Nothing,
    }
}

fn take_call(
    limit: u8,
    d: Device,
    call: DeviceCall,
    put: &[u8],
    contents: &mut [u8; 255],
    frame: &mut [u8; 284],
) -> DeviceCallTaken
    ensures { DeviceCalledIs limit d call put.now frame.old contents.old result
        frame.new contents.new }
{
    match call {
        DeviceCall::Nothing => no_call(d),
        DeviceCall::Answers(wish) => called_by(d, device::answer(limit, d, wish, put, frame)),
        DeviceCall::Content(command) => called_by(d, content(limit, d, command, put, contents)),
    }
}

// A tick, on a link with this data limit. Lent are the data of an answer or of a burst content, the burst content, the buffer that holds the device's ACK or BACK and the one for the data of the frame that it hears.
pub fn tick(
    limit: u8,
    d: Device,
    heard: Heard,
    call: DeviceCall,
    put: &[u8],
    contents: &mut [u8; 255],
    frame: &mut [u8; 284],
    bytes: &mut [u8; 255],
) -> DeviceTicked
    ensures { DeviceTickIs limit d heard call put.now frame.old bytes.old contents.old result
        frame.new bytes.new contents.new }
{
    let taken = device::take(d, heard, bytes, frame);
    let called = take_call(limit, taken.device, call, put, contents, frame);
    let behind = device::send(called.device, contents, frame);
    DeviceTicked {
        device: behind.device,
        sent: behind.sent,
        told: taken.told,
        event: taken.event,
        result: called.result,
    }
}
