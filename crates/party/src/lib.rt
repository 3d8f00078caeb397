// What master and device have in common: what silence and a broadcast are, how a count goes down, the characters of a frame that is sent, and the numbers of what is sent and of what became of a call.
#![tactic(auto, using(base::proofs::Choices::choices))]

ghost use Rattle.std.specs.Prelude.{◌≡◌, ◌-◌, ◌<◌};
ghost use Rattle.frame.specs.Address.{byte_at};
ghost use Rattle.turns.specs.Party.{is_broadcast, seeks_tag};
ghost use Rattle.party.specs.Hears.{is_silence};
ghost use Rattle.party.specs.Numbers.{sent_number, call_number};

use frame::Header;
use line::Heard;
use turns::{CallResult, Sent};

// Whether a tick was silent.
pub fn is_silence(heard: Heard) -> bool
    ensures { result ≡ is_silence heard }
{
    matches!(heard, Heard::Silence)
}

// One less, down to 0.
pub fn one_less(n: u32) -> u32
    ensures { result ≡ n - 1 }
{
    n.saturating_sub(1)
}

// The byte at a place, or 0 past the last.
fn byte_at(bytes: &[u8], place: usize) -> u8
    ensures { result ≡ byte_at bytes.now place }
{
    bytes.get(place).copied().unwrap_or(0)
}

// The character with this number in a frame that is sent, or 0 past the buffer's end.
pub fn character_at(frame: &[u8; 284], n: u16) -> u8
    ensures { result ≡ byte_at frame.now n }
{
    byte_at(frame, n as usize)
}

// Whether a frame is to unique address 0.
pub fn is_broadcast(h: Header) -> bool
    ensures { result ≡ is_broadcast h }
{
    h.long && h.address == 0
}

// Whether a frame is command 11 by broadcast, or its ACK, which repeats the address bytes.
pub fn seeks_tag(h: Header) -> bool
    ensures { result ≡ seeks_tag h }
{
    is_broadcast(h) && h.command == 11
}

// What is sent, as the number that a program in C reads: the character with 256 added, or 0 for none.
pub fn sent_number(sent: Sent) -> u16
    ensures { (result ≡ sent_number sent) × (result < 512) }
{
    match sent {
        Sent::Silent => 0,
        Sent::Character(c) => 0x100 + u16::from(c),
    }
}

// What became of a call, as the number that a program in C reads: 0 where there was none or it was taken, or the refusal's.
pub fn call_number(res: CallResult) -> u32
    ensures { result ≡ call_number res }
{
    match res {
        CallResult::Nothing | CallResult::Taken => 0,
        CallResult::Refused(why) => why,
    }
}
