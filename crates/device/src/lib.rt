// A HART device: a slave, with burst mode. The functions follow the definitions of crates/turns/specs/Device.antt, in their order.
#![tactic(auto, using(base::proofs::Choices::choices))]

mod sends;

ghost use Rattle.std.specs.Prelude.{◌≡◌, ◌≤◌, length, take};
ghost use Rattle.frame.specs.Limits.{most_data};
ghost use Rattle.frame.specs.Write.{write_buffer};
ghost use Rattle.turns.specs.Device.{device_with, error_status, error_data, answer_header, error_frame, has_no_wish, wish_refused, answers_at, answered_by, answered, answer_frame, back_header, begun_frame, fresh_device, device_starts};
ghost use Rattle.device_rules.specs.Hearing.{length_by};
ghost use Rattle.device.specs.Promises.{DeviceTakeIs, AnswerIs, SendIs};
ghost use Rattle.base.specs.Refusal.{called_as};

use base::Refusal;
use frame::Header;
use line::{Event, FrameDamage, Heard, Profile, Whole};
pub use sends::sends_by;
use turns::{Content, Device, DeviceSent, DeviceTaken, Turn, Wish};

// The first data byte of an error answer.
fn error_status(m: FrameDamage) -> u8
    ensures { result ≡ error_status m }
{
    0x80 + frame_write::flag(m.parity, 0x40)
        + frame_write::flag(m.overrun, 0x20)
        + frame_write::flag(m.framing, 0x10)
        + frame_write::flag(m.check, 0x08)
}

fn error_data(m: FrameDamage) -> [u8; 2]
    ensures { result ≡ error_data m }
{
    [error_status(m), 0]
}

// An ACK to a request.
fn answer_header(h: Header, burst: bool) -> Header
    ensures { result ≡ answer_header h burst }
{
    Header {
        kind: frame::ACK,
        burst,
        ..h
    }
}

// Puts an ACK or BACK into the lent frame buffer, where the frame writer takes it.
fn put_frame(preamble: u8, h: Header, bytes: &[u8], frame: &mut [u8; 284])
    ensures { frame.new ≡ write_buffer preamble h bytes.now frame.old 0 }
{
    let _ = frame_write::write(usize::from(preamble), h, bytes, frame, 0);
}

// The same with the first bytes of a burst content.
fn put_part(preamble: u8, h: Header, count: u8, contents: &[u8], frame: &mut [u8; 284])
    requires { most_data ≤ length contents.now }
    ensures { frame.new ≡ write_buffer preamble h (take count contents.now) frame.old 0 }
{
    put_frame(preamble, h, &contents[..usize::from(count)], frame);
}

// Puts the error answer to a damaged frame into the lent frame buffer.
fn put_error(d: Device, w: Whole, m: FrameDamage, frame: &mut [u8; 284])
    ensures { frame.new ≡ error_frame d (Event.Damaged w m) frame.old }
{
    if device_rules::has_error(d, w, m) {
        put_frame(
            d.preamble,
            answer_header(w.header, d.burst),
            &error_data(m),
            frame,
        );
    }
}

// The error answer, by what the reader tells.
fn put_error_answer(d: Device, event: Event, frame: &mut [u8; 284])
    ensures { frame.new ≡ error_frame d event frame.old }
{
    if let Event::Damaged(w, m) = event {
        put_error(d, w, m, frame);
    }
}

// Takes what was heard: returns the device after it, and what it tells its host. The data of the frame being heard are in the lent data buffer, and an error answer is put into the lent frame buffer.
pub fn take(d: Device, heard: Heard, bytes: &mut [u8; 255], frame: &mut [u8; 284]) -> DeviceTaken
    ensures { DeviceTakeIs d heard bytes.old frame.old result bytes.new frame.new }
{
    let taken = device_rules::take(d, heard, bytes);
    put_error_answer(d, taken.event, frame);
    taken
}

// Whether an answer to this request may wish neither on nor off: command 0, or command 11 by broadcast.
fn has_no_wish(h: Header) -> bool
    ensures { result ≡ has_no_wish h }
{
    h.command == 0 || party::seeks_tag(h)
}

// Whether burst may not be turned on.
fn on_refused(d: Device) -> bool
    ensures { result ≡ wish_refused d Wish.On }
{
    has_no_wish(d.request) || !d.content.given
}

fn wish_refused(d: Device, wish: Wish) -> bool
    ensures { result ≡ wish_refused d wish }
{
    match wish {
        Wish::Same => false,
        Wish::On => on_refused(d),
        Wish::Off => has_no_wish(d.request),
    }
}

// The turn after an answer, with so many ticks left for its request.
fn answers_at(d: Device, left: u16) -> Turn
    ensures { result ≡ answers_at d left }
{
    if left == d.profile.sto {
        Turn::AnswerWaits
    } else {
        Turn::Begins
    }
}

// The device with an answer of so many data bytes.
fn answering(d: Device, wish: Wish, count: u8, left: u16) -> Device
    ensures { result ≡ device_with d d.receiver (answers_at d left) d.request wish (length_by d.preamble d.request.long count) d.due }
{
    Device {
        turn: answers_at(d, left),
        wish,
        length: device_rules::frame_length(d.preamble, d.request.long, count),
        ..d
    }
}

// An answer of so many data bytes to the request in hand.
fn answer_request(
    limit: u8,
    d: Device,
    wish: Wish,
    count: usize,
    left: u16,
) -> Result<Device, Refusal>
    ensures { called_as result ≡ answered_by limit d wish count (Turn.Asked left) }
{
    if base::outside(count, 2, limit as usize) {
        Err(Refusal::DataLength)
    } else if wish_refused(d, wish) {
        Err(Refusal::BurstWish)
    } else {
        Ok(answering(d, wish, count as u8, left))
    }
}

#[tactic(auto, using(base::proofs::Choices::choices), unfolding(turns::specs::Device::answered))]
fn answer_by(limit: u8, d: Device, wish: Wish, count: usize) -> Result<Device, Refusal>
    ensures { called_as result ≡ answered limit d wish count }
{
    match d.turn {
        Turn::Asked(left) => answer_request(limit, d, wish, count, left),
        _ => Err(Refusal::NoRequest),
    }
}

// Puts the host's answer into the lent frame buffer.
fn put_answer(d: Device, wish: Wish, bytes: &[u8], frame: &mut [u8; 284])
    ensures { frame.new ≡ answer_frame d wish bytes.now frame.old }
{
    put_frame(
        d.preamble,
        answer_header(d.request, sends::wished_burst(d.burst, wish)),
        bytes,
        frame,
    );
}

// Takes the host's answer to the request in hand, on a link with this data limit, or refuses it with 8, 9 or 10 and leaves the lent frame buffer as it was.
pub fn answer(
    limit: u8,
    d: Device,
    wish: Wish,
    bytes: &[u8],
    frame: &mut [u8; 284],
) -> Result<Device, Refusal>
    ensures { AnswerIs limit d wish bytes.now frame.old result frame.new }
{
    let answering = answer_by(limit, d, wish, bytes.len())?;
    put_answer(d, wish, bytes, frame);
    Ok(answering)
}

// What a BACK says.
fn back_header(d: Device) -> Header
    ensures { result ≡ back_header d }
{
    Header {
        kind: frame::BACK,
        long: true,
        primary: d.primary,
        burst: true,
        address: d.unique,
        command: d.content.command,
    }
}

// Puts the next BACK into the lent frame buffer.
fn put_back(d: Device, contents: &[u8; 255], frame: &mut [u8; 284])
    ensures { frame.new ≡ begun_frame d Turn.Follows contents.now frame.old }
{
    put_part(d.preamble, back_header(d), d.content.count, contents, frame);
}

// Puts the BACK that begins in this tick, if one does.
fn put_begun(d: Device, contents: &[u8; 255], frame: &mut [u8; 284])
    ensures { frame.new ≡ begun_frame d d.turn contents.now frame.old }
{
    if matches!(d.turn, Turn::Follows) {
        put_back(d, contents, frame);
    }
}

// Sends a character of the frame in the lent frame buffer, or nothing. A BACK that begins is put there first, with what the host gave last.
pub fn send(d: Device, contents: &[u8; 255], frame: &mut [u8; 284]) -> DeviceSent
    ensures { SendIs d contents.now frame.old result frame.new }
{
    put_begun(d, contents, frame);
    sends::sends_by(d, frame)
}

// A device with burst off, no request in hand, and no burst content.
fn fresh(profile: Profile, preamble: u8, polling: u8, unique: u64) -> Device
    ensures { result ≡ fresh_device profile preamble polling unique }
{
    let request = Header {
        kind: 0,
        long: false,
        primary: false,
        burst: false,
        address: 0,
        command: 0,
    };
    let content = Content {
        given: false,
        command: 0,
        count: 0,
    };
    Device {
        profile,
        preamble,
        polling,
        unique,
        receiver: line_reader::passing_reader(),
        deaf: true,
        turn: Turn::Listens,
        request,
        wish: Wish::Same,
        length: 0,
        burst: false,
        primary: true,
        due: u32::from(profile.rt1p),
        content,
    }
}

// A device of these addresses, or refusal 3 or 4.
pub fn start(profile: Profile, preamble: usize, polling: u8, unique: u64) -> Result<Device, Refusal>
    ensures { called_as result ≡ device_starts profile preamble polling unique }
{
    if base::outside(preamble, 5, 20) {
        Err(Refusal::PreambleLength)
    } else if 63 < polling || base::outside(unique as usize, 1, 274877906943) {
        Err(Refusal::Address)
    } else {
        Ok(fresh(profile, preamble as u8, polling, unique))
    }
}
