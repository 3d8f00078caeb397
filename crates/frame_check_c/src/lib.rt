// The exclusive-or of x and count bytes from a start on, by words and byte by byte, for tests and measurements; of x alone where they would run past the end.
#![tactic(auto)]

ghost use Rattle.std.specs.Prelude.{◌≡◌};
ghost use Rattle.frame.specs.Check.{xor_from};
ghost use Rattle.frame.specs.Read.{part_of};

// By words.
#[unsafe(no_mangle)]
pub extern "C" fn nengapiko_check_words(x: u8, bytes: &[u8], start: usize, count: usize) -> u8
    ensures { result ≡ xor_from x (part_of bytes.now start count) }
{
    frame_check::xor_from(x, frame_read::part(bytes, start, count))
}

// Byte by byte.
#[unsafe(no_mangle)]
pub extern "C" fn nengapiko_check_bytes(x: u8, bytes: &[u8], start: usize, count: usize) -> u8
    ensures { result ≡ xor_from x (part_of bytes.now start count) }
{
    frame::xor_bytes(x, frame_read::part(bytes, start, count))
}
