// The frame writer and reader for programs in C: a frame's fields are arguments, and each call answers in numbers.
#![tactic(auto, using(base::proofs::Choices::choices))]

ghost use Rattle.std.specs.Prelude.{◌≡◌};
ghost use Rattle.frame_c.specs.Numbers.{header, found_numbers, WriteCall, ReadCall};

use frame::{Found, Header};

// Writes a frame, and sets end to where it ends; or returns the refusal's number and changes nothing.
#[unsafe(no_mangle)]
pub extern "C" fn nengapiko_write(
    preamble: usize,
    frame: u8,
    long: bool,
    primary: bool,
    burst: bool,
    address: u64,
    command: u8,
    bytes: &[u8],
    buffer: &mut [u8],
    place: usize,
    end: &mut usize,
) -> u32
    ensures { WriteCall preamble (header frame long primary burst address command) bytes.now buffer place end result }
{
    let h = Header {
        kind: frame,
        long,
        primary,
        burst,
        address,
        command,
    };
    match frame_write::write(preamble, h, bytes, buffer, place) {
        Ok(place_behind) => {
            *end = place_behind;
            0
        }
        Err(why) => why.number(),
    }
}

// The numbers of a frame that was read, in the header's order.
fn numbers_of(found: Found) -> [u64; 11]
    ensures { result ≡ found_numbers found }
{
    let h = found.header;
    [
        found.preamble as u64,
        u64::from(h.kind),
        u64::from(h.long),
        u64::from(h.primary),
        u64::from(h.burst),
        h.address,
        u64::from(found.expansion),
        u64::from(h.command),
        found.start as u64,
        found.count as u64,
        found.end as u64,
    ]
}

// Reads the frame at the front of some bytes into its numbers; or returns the refusal's number and changes nothing.
#[unsafe(no_mangle)]
pub extern "C" fn nengapiko_read(bytes: &[u8], fields: &mut [u64; 11]) -> u32
    ensures { ReadCall bytes.now fields result }
{
    match frame_read::read(bytes) {
        Ok(found) => {
            *fields = numbers_of(found);
            0
        }
        Err(why) => why.number(),
    }
}
