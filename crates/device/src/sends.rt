// What a device sends from its lent frame buffer, in which a BACK that begins already stands. The functions follow the definitions of crates/turns/specs/Device.antt, in their order.
ghost use Rattle.std.specs.Prelude.{◌≡◌, true, false};
ghost use Rattle.base.specs.Choice.{when◌then◌else◌};
ghost use Rattle.line.specs.Reader.{passing};
ghost use Rattle.turns.specs.Device.{wished, sends, first_for, behind_ack, answers_from, bursts_from, back_length, sends_by, device_sends};

use turns::{Device, DeviceSent, Sent, Turn, Wish};

// Whether the device bursts, from the ACK's first character on.
pub fn wished_burst(burst: bool, wish: Wish) -> bool
    ensures { result ≡ wished burst wish }
{
    match wish {
        Wish::Same => burst,
        Wish::On => true,
        Wish::Off => false,
    }
}

// A device that sends nothing.
fn sends_nothing(d: Device) -> DeviceSent
    ensures { result ≡ sends d false d.turn d.length d.burst d.primary d.due d.receiver Sent.Silent }
{
    DeviceSent {
        device: Device { deaf: false, ..d },
        sent: Sent::Silent,
    }
}

// A device that sends a character, and hears nothing.
fn sends_character(d: Device, c: u8) -> DeviceSent
    ensures { result ≡ sends d true d.turn d.length d.burst d.primary d.due passing (Sent.Character c) }
{
    DeviceSent {
        device: Device {
            receiver: line_reader::passing_reader(),
            deaf: true,
            ..d
        },
        sent: Sent::Character(c),
    }
}

// Whether the next BACK is for the primary, from an ACK's first character on.
fn first_for(d: Device) -> bool
    ensures { result ≡ first_for d }
{
    !d.burst || d.primary
}

// The turn after an ACK.
fn behind_ack(burst: bool) -> Turn
    ensures { result ≡ behind_ack burst }
{
    if burst { Turn::Follows } else { Turn::Listens }
}

// One character of an ACK.
fn answers_from(d: Device, frame: &[u8; 284], n: u16, burst: bool, primary: bool) -> DeviceSent
    ensures { result ≡ answers_from d frame.now n burst primary }
{
    let turn = if u32::from(n) + 1 < u32::from(d.length) {
        Turn::Answers(n + 1)
    } else {
        behind_ack(burst)
    };
    let behind = Device {
        turn,
        burst,
        primary,
        due: 0,
        ..d
    };
    sends_character(behind, party::character_at(frame, n))
}

// One character of a BACK of this length.
fn bursts_from(d: Device, frame: &[u8; 284], n: u16, length: u16, primary: bool) -> DeviceSent
    ensures { result ≡ bursts_from d frame.now n length primary }
{
    let (turn, due) = if u32::from(n) + 1 < u32::from(length) {
        (Turn::Bursts(n + 1), 0)
    } else {
        (Turn::Listens, u32::from(d.profile.rt2))
    };
    let behind = Device {
        turn,
        length,
        primary,
        due,
        ..d
    };
    sends_character(behind, party::character_at(frame, n))
}

// How many characters the next BACK has.
fn back_length(d: Device) -> u16
    ensures { result ≡ back_length d }
{
    device_rules::frame_length(d.preamble, true, d.content.count)
}

// The first character of a BACK.
fn begins_back(d: Device, frame: &[u8; 284]) -> DeviceSent
    ensures { result ≡ sends_by d frame.now Turn.Follows }
{
    bursts_from(d, frame, 0, back_length(d), !d.primary)
}

// The first character of an ACK.
fn begins_answer(d: Device, frame: &[u8; 284]) -> DeviceSent
    ensures { result ≡ sends_by d frame.now Turn.Begins }
{
    answers_from(d, frame, 0, wished_burst(d.burst, d.wish), first_for(d))
}

// A character or none, by the device's turn.
#[tactic(auto, using(base::proofs::Choices::choices), unfolding(turns::specs::Device::device_sends))]
pub fn sends_by(d: Device, frame: &[u8; 284]) -> DeviceSent
    ensures { result ≡ device_sends d frame.now }
{
    match d.turn {
        Turn::Listens | Turn::Asked(_) | Turn::AnswerWaits => sends_nothing(d),
        Turn::Begins => begins_answer(d, frame),
        Turn::Answers(n) => answers_from(d, frame, n, d.burst, d.primary),
        Turn::Follows => begins_back(d, frame),
        Turn::Bursts(n) => bursts_from(d, frame, n, d.length, d.primary),
    }
}
