// The HART frame: what it says, the answers of its writer and its reader, and what both of them work out.
#![tactic(auto, using(base::proofs::Choices::choices))]

ghost use Rattle.std.specs.Prelude.{◌≡◌};
ghost use Rattle.frame.specs.Delimiter.{delimiter_of, delimiter_with, from_device, is_type};
ghost use Rattle.frame.specs.Check.{xor_from};
ghost use Rattle.frame.specs.Frame.{too_few};

use base::Refusal;

// The frame types, as the delimiter's bits 2 to 0 carry them.
pub const STX: u8 = 2;

pub const ACK: u8 = 6;

pub const BACK: u8 = 1;

// What a frame says, without preamble and data.
#[derive(Clone, Copy, PartialEq, Eq)]
pub struct Header {
    pub address: u64,
    // the frame type: STX, ACK or BACK
    pub kind: u8,
    // the master bit
    pub primary: bool,
    // the burst flag
    pub burst: bool,
    // a unique address of 38 bits, or a polling address of 6
    pub long: bool,
    pub command: u8,
}

// What a delimiter says.
#[derive(Clone, Copy)]
pub struct Delimiter {
    // the frame type: STX, ACK or BACK
    pub kind: u8,
    // whether the address is long
    pub long: bool,
    // how many expansion bytes there are
    pub expansion: u8,
}

// A frame that was read: its fields, and where its data and its end are in the caller's bytes.
#[derive(Clone, Copy)]
pub struct Found {
    pub preamble: usize,
    pub header: Header,
    pub expansion: u8,
    pub start: usize,
    pub count: usize,
    pub end: usize,
}

// A delimiter that says these three.
fn delimiter_with(kind: u8, long: bool, expansion: u8) -> Option<Delimiter>
    ensures { result ≡ delimiter_with kind long expansion }
{
    Some(Delimiter {
        kind,
        long,
        expansion,
    })
}

// What a byte says in the delimiter's place; nothing where it is no delimiter.
#[tactic(auto, using(base::proofs::Choices::choices), unfolding(crate::specs::Delimiter::delimiter_of))]
pub fn delimiter_of(byte: u8) -> Option<Delimiter>
    ensures { result ≡ delimiter_of byte }
{
    match byte {
        0x02 => delimiter_with(STX, false, 0),
        0x22 => delimiter_with(STX, false, 1),
        0x42 => delimiter_with(STX, false, 2),
        0x62 => delimiter_with(STX, false, 3),
        0x82 => delimiter_with(STX, true, 0),
        0xA2 => delimiter_with(STX, true, 1),
        0xC2 => delimiter_with(STX, true, 2),
        0xE2 => delimiter_with(STX, true, 3),
        0x06 => delimiter_with(ACK, false, 0),
        0x26 => delimiter_with(ACK, false, 1),
        0x46 => delimiter_with(ACK, false, 2),
        0x66 => delimiter_with(ACK, false, 3),
        0x86 => delimiter_with(ACK, true, 0),
        0xA6 => delimiter_with(ACK, true, 1),
        0xC6 => delimiter_with(ACK, true, 2),
        0xE6 => delimiter_with(ACK, true, 3),
        0x01 => delimiter_with(BACK, false, 0),
        0x21 => delimiter_with(BACK, false, 1),
        0x41 => delimiter_with(BACK, false, 2),
        0x61 => delimiter_with(BACK, false, 3),
        0x81 => delimiter_with(BACK, true, 0),
        0xA1 => delimiter_with(BACK, true, 1),
        0xC1 => delimiter_with(BACK, true, 2),
        0xE1 => delimiter_with(BACK, true, 3),
        _ => None,
    }
}

// Whether a number is the type of a frame that a device sends.
pub fn from_device(n: u8) -> bool
    ensures { result ≡ from_device n }
{
    n == ACK || n == BACK
}

// Whether a number is a frame type.
pub fn is_type(n: u8) -> bool
    ensures { result ≡ is_type n }
{
    n == STX || from_device(n)
}

// Whether a frame of this type must carry more than so many data bytes.
pub fn too_few(frame: u8, count: usize) -> bool
    ensures { result ≡ too_few frame count }
{
    from_device(frame) && count < 2
}

// The exclusive-or of x and some bytes, byte by byte.
#[tactic(auto, using(crate::proofs::Checks::xor_is_fold))]
pub fn xor_bytes(x: u8, bytes: &[u8]) -> u8
    ensures { result ≡ xor_from x bytes.now }
{
    bytes.iter().fold(x, |sum, byte| sum ^ *byte)
}
