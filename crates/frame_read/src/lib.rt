// The frame reader: the frame at the front of the caller's bytes, and the part of those bytes that is its data.
#![tactic(auto, using(base::proofs::Choices::choices))]

ghost use Rattle.std.specs.List.{take_while};
ghost use Rattle.std.specs.Prelude.{◌≡◌, ◌==◌, ◌+◌, ◌^◌, ◌≤◌, ◌<◌, length};
ghost use Rattle.frame.specs.Address.{address_of, unique_address};
ghost use Rattle.frame.specs.Read.{command_place, header_of, read_body, read_frame, part_of};
ghost use Rattle.base.specs.Refusal.{called_as};

use base::Refusal;
use frame::{Delimiter, Found, Header};

// How many 0xFF the bytes begin with.
fn count_preambles(bytes: &[u8]) -> usize
    ensures { result ≡ length (take_while (λ b. b == 0xFF) bytes.now) }
{
    bytes.iter().take_while(|b| **b == 0xFF).count()
}

// The unique address in a body that is long enough to hold one.
fn unique_address(body: &[u8]) -> u64
    requires { 6 ≤ length body.now }
    ensures { result ≡ unique_address body.now }
{
    u64::from_be_bytes([0, 0, 0, body[1] % 64, body[2], body[3], body[4], body[5]])
}

// The address in a body whose command stands at place.
fn address_of(body: &[u8], long: bool, place: usize) -> u64
    requires { (command_place long 0 ≤ place) × (place < length body.now) }
    ensures { result ≡ address_of long body.now }
{
    if long {
        unique_address(body)
    } else {
        u64::from(body[1] % 64)
    }
}

// The header in a body whose command stands at place. A call of its own would cost the reader time.
#[inline(always)]
fn header_of(d: Delimiter, place: usize, body: &[u8]) -> Header
    requires { (command_place d.long 0 ≤ place) × (place < length body.now) }
    ensures { result ≡ header_of d.kind d.long place body.now }
{
    let first = body[1];
    Header {
        kind: d.kind,
        long: d.long,
        primary: first / 128 == 1,
        burst: first / 64 % 2 == 1,
        address: address_of(body, d.long, place),
        command: body[place],
    }
}

// Where the command stands in a body with this delimiter.
fn command_place(d: Delimiter) -> usize
    ensures { (result ≡ command_place d.long d.expansion) × (command_place d.long 0 ≤ result) × (result ≤ 261) }
{
    let address = if d.long { 5 } else { 1 };
    address + usize::from(d.expansion) + 1
}

// The frame whose delimiter is the first byte of a body, after so many preamble characters.
fn read_body(preamble: usize, body: &[u8]) -> Result<Found, Refusal>
    requires { preamble + length body.now < 2 ^ 64 }
    ensures { called_as result ≡ read_body preamble body.now }
{
    if body.is_empty() {
        return Err(Refusal::EndsEarly);
    }
    let Some(d) = frame::delimiter_of(body[0]) else {
        return Err(Refusal::NoDelimiter);
    };
    let place = command_place(d);
    if body.len() <= place + 1 {
        return Err(Refusal::EndsEarly);
    }
    let count = usize::from(body[place + 1]);
    let last = place + 2 + count;
    if body.len() <= last {
        return Err(Refusal::EndsEarly);
    }
    if frame::too_few(d.kind, count) || frame_check::xor_from(0, &body[..last]) != body[last] {
        return Err(Refusal::Unsound);
    }
    Ok(Found {
        preamble,
        header: header_of(d, place, body),
        expansion: d.expansion,
        start: preamble + (place + 2),
        count,
        end: preamble + (place + 3 + count),
    })
}

// The frame at the front of some bytes.
pub fn read(bytes: &[u8]) -> Result<Found, Refusal>
    ensures { called_as result ≡ read_frame bytes.now }
{
    let preamble = count_preambles(bytes);
    if preamble < 2 {
        return Err(Refusal::FewPreambles);
    }
    read_body(preamble, &bytes[preamble..])
}

// The part of some bytes that begins at start and has count bytes; none where it would run past the end.
// A test and no `get` in a closure, whose proof did not close.
pub fn part(bytes: &[u8], start: usize, count: usize) -> &[u8]
    ensures { result.now ≡ part_of bytes.now start count }
{
    if start <= bytes.len() && count <= bytes.len() - start {
        &bytes[start..start + count]
    } else {
        &[]
    }
}
