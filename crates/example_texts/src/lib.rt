// What the example programs print: a frame's header as text, and a line.
#![tactic(auto)]

ghost use Rattle.std.specs.Prelude.{◌++◌};
ghost use Rattle.texts.specs.Digits.{decimal, bit_of};
ghost use Rattle.texts.specs.Put.{PutIs};
ghost use Rattle.example_texts.specs.Header.{header_text};

use frame::Header;
use std::io;
use texts::{bit, put_field};

// A name and a flag.
fn put_flag(name: &[u8], on: bool, out: &mut [u8], at: usize) -> usize
    ensures { PutIs (name.now ++ decimal (bit_of on)) out.old at result out.new }
{
    put_field(name, bit(on), out, at)
}

// The fields of a header, but for its command.
pub fn put_header(h: Header, out: &mut [u8], at: usize) -> usize
    ensures { PutIs (header_text h) out.old at result out.new }
{
    let mut place = put_field(b" type ", u64::from(h.kind), out, at);
    place = put_flag(b" long ", h.long, out, place);
    place = put_flag(b" primary ", h.primary, out, place);
    place = put_flag(b" burst ", h.burst, out, place);
    put_field(b" address ", h.address, out, place)
}

// Prints the first count bytes as a line.
pub fn print_line(rt: &impl Print, bytes: &[u8], count: usize) -> io::Result<()> {
    rt.write_all(texts::front(bytes, count))?;
    rt.write_all(b"\n")
}
