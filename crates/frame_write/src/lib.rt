// The frame writer: it takes a frame's fields and data, and writes its bytes into the part of a lent buffer that begins at the named place.
#![tactic(auto, using(base::proofs::Choices::choices))]

ghost use Rattle.std.specs.Prelude.{◌≡◌, [], ◌∷◌, ◌+◌, ◌^◌, ◌≤◌, ◌<◌, length};
ghost use Rattle.base.specs.Choice.{when◌then◌else◌};
ghost use Rattle.base.specs.Store.{stored};
ghost use Rattle.frame.specs.Limits.{most_preambles, most_data, longest_frame};
ghost use Rattle.frame.specs.Address.{address_length, long_address, address_bytes, address_above, largest_address, first_byte};
ghost use Rattle.frame.specs.Delimiter.{delimiter_byte};
ghost use Rattle.frame.specs.Frame.{header_bytes, body_bytes, preamble_bytes, frame_bytes, header_length, frame_length};
ghost use Rattle.frame.specs.Write.{by_room, write_answer, WriteIs};
ghost use Rattle.frame_write.specs.Puts.{PartIs, WithinLimits};
ghost use Rattle.base.specs.Refusal.{called_as};

use base::Refusal;
use frame::Header;

// The preamble: every byte of its part is 0xFF. `fill` takes sixteen bytes of stack more.
fn put_preamble(part: &mut [u8])
    ensures { part.new ≡ preamble_bytes (length part.old) }
{
    for byte in part.iter_mut() {
        *byte = 0xFF;
    }
}

// The bit if it is on, else 0.
pub fn flag(on: bool, bit: u8) -> u8
    ensures { (result ≡ (when on then bit else 0)) × (result ≤ bit) }
{
    if on { bit } else { 0 }
}

// The first address byte, with the six bits that the address begins with.
fn first_byte(h: Header, bits: u8) -> u8
    requires { bits < 64 }
    ensures { result ≡ first_byte h bits }
{
    flag(h.primary, 128) + flag(h.burst, 64) + bits
}

// The delimiter.
fn delimiter_byte(h: Header) -> u8
    requires { h.kind ≤ 6 }
    ensures { result ≡ delimiter_byte h.kind h.long }
{
    flag(h.long, 128) + h.kind
}

// Puts a field of one byte, without a loop for it. Like each function that puts a field, it returns the exclusive-or of x and what it put.
fn put_byte(part: &mut [u8], x: u8, byte: u8) -> u8
    requires { length part.old ≡ 1 }
    ensures { PartIs x (byte ∷ []) part.new result }
{
    part[0] = byte;
    x ^ byte
}

// Puts a unique address.
fn put_long_address(part: &mut [u8], x: u8, h: Header) -> u8
    requires { (length part.old ≡ 5) × (h.address < 2 ^ 38) }
    ensures { PartIs x (long_address h) part.new result }
{
    let [_, _, _, first, second, third, fourth, fifth] = h.address.to_be_bytes();
    let field = [first_byte(h, first), second, third, fourth, fifth];
    put_data(part, x, &field)
}

// Puts the address.
fn put_address(part: &mut [u8], x: u8, h: Header) -> u8
    requires { (length part.old ≡ address_length h.long) × (h.address ≤ largest_address h.long) }
    ensures { PartIs x (address_bytes h) part.new result }
{
    if h.long {
        put_long_address(part, x, h)
    } else {
        put_byte(part, x, first_byte(h, h.address as u8))
    }
}

// Puts delimiter, address, command and byte count.
fn put_header(part: &mut [u8], h: Header, count: u8) -> u8
    requires { (length part.old ≡ header_length h) × (h.kind ≤ 6) × (h.address ≤ largest_address h.long) }
    ensures { PartIs 0 (header_bytes h count) part.new result }
{
    let address_end = part.len() - 2;
    let command_end = part.len() - 1;
    let delimiter = put_byte(&mut part[..1], 0, delimiter_byte(h));
    let address = put_address(&mut part[1..address_end], delimiter, h);
    let command = put_byte(&mut part[address_end..command_end], address, h.command);
    put_byte(&mut part[command_end..], command, count)
}

// Puts the data. One pass copies and adds up: the data are read once.
fn put_data(part: &mut [u8], x: u8, bytes: &[u8]) -> u8
    requires { length part.old ≡ length bytes.now }
    ensures { PartIs x bytes.now part.new result }
{
    let mut sum = x;
    for (i, byte) in bytes.iter().enumerate() {
        part[i] = *byte;
        sum ^= *byte;
    }
    sum
}

// How many bytes delimiter, address, command and byte count have.
fn header_length(h: Header) -> usize
    ensures { (result ≡ header_length h) × (result ≤ 8) }
{
    if h.long { 8 } else { 4 }
}

// Puts delimiter to check byte at the front of part.
fn put_body(part: &mut [u8], h: Header, bytes: &[u8])
    requires { (header_length h + length bytes.now + 1 ≤ length part.old) × WithinLimits h (length bytes.now) }
    ensures { part.new ≡ stored part.old 0 (body_bytes h bytes.now) }
{
    let start = header_length(h);
    let end = start + bytes.len();
    let header = put_header(&mut part[..start], h, bytes.len() as u8);
    let check = put_data(&mut part[start..end], header, bytes);
    put_byte(&mut part[end..end + 1], 0, check);
}

// Puts the whole frame at the front of part.
fn put_frame(part: &mut [u8], preamble: usize, h: Header, bytes: &[u8])
    requires { (frame_length preamble h (length bytes.now) ≤ length part.old) × WithinLimits h (length bytes.now) }
    ensures { part.new ≡ stored part.old 0 (frame_bytes preamble h bytes.now) }
{
    put_preamble(&mut part[..preamble]);
    put_body(&mut part[preamble..], h, bytes);
}

// Whether a polling address is above the largest, or a unique one above 38 bits.
pub fn address_above(polling: u64, h: Header) -> bool
    ensures { result ≡ address_above polling h }
{
    let largest = if h.long { 274877906943 } else { polling };
    largest < h.address
}

// How many bytes a frame with so many data bytes has.
fn frame_length(preamble: usize, h: Header, count: usize) -> usize
    requires { (preamble ≤ most_preambles) × (count ≤ most_data) }
    ensures { (result ≡ frame_length preamble h count) × (result ≤ longest_frame most_data) }
{
    preamble + (header_length(h) + count + 1)
}

// Whether so many bytes fit into a buffer of room bytes from a place on.
fn by_room(place: usize, length: usize, room: usize) -> Result<usize, Refusal>
    ensures { called_as result ≡ by_room (place + length) room }
{
    if place <= room && length <= room - place {
        Ok(place + length)
    } else {
        Err(Refusal::BufferShort)
    }
}

// What a write answers, for so many data bytes and a buffer of room bytes.
#[tactic(auto, using(base::proofs::Choices::choices, crate::proofs::Answers::room_of), unfolding(frame::specs::Write::write_answer))]
fn answer(
    preamble: usize,
    h: Header,
    count: usize,
    room: usize,
    place: usize,
) -> Result<usize, Refusal>
    ensures { called_as result ≡ write_answer preamble h count room place }
{
    if base::outside(preamble, 5, 20) {
        return Err(Refusal::PreambleLength);
    }
    if address_above(63, h) {
        return Err(Refusal::Address);
    }
    if 255 < count {
        return Err(Refusal::DataLong);
    }
    if frame::too_few(h.kind, count) {
        return Err(Refusal::DataLength);
    }
    if !frame::is_type(h.kind) {
        return Err(Refusal::NoDelimiter);
    }
    by_room(place, frame_length(preamble, h, count), room)
}

// Writes a frame into the buffer from a place on, or refuses and leaves the buffer as it was.
pub fn write(
    preamble: usize,
    h: Header,
    bytes: &[u8],
    buffer: &mut [u8],
    place: usize,
) -> Result<usize, Refusal>
    ensures { WriteIs preamble h bytes.now buffer.old place result buffer.new }
{
    // A match and no `?`: the must-fail edit refused_yet_written turns what a refusal gives.
    match answer(preamble, h, bytes.len(), buffer.len(), place) {
        Ok(end) => {
            put_frame(&mut buffer[place..], preamble, h, bytes);
            Ok(end)
        }
        Err(why) => Err(why),
    }
}
