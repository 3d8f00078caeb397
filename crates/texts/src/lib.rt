// Text in ASCII for the programs that print: it is put into a lent buffer from a place on, or read. What does not fit is left out.
// Buffer and place are two parameters and no struct: programs keep the place between calls that are each lent the buffer anew, and PutIs, which their contracts cite, speaks of both.
#![tactic(auto, using(base::proofs::Choices::choices))]

ghost use Rattle.std.specs.Prelude.{◌≡◌, [], ◌∷◌, ◌++◌, false, take, ◌<◌, ◌+◌};
ghost use Rattle.texts.specs.Decimal.{decimal_of};
ghost use Rattle.texts.specs.Digits.{decimal, bit_of, digit_of, hexadecimal, spaced, value_of, byte_of};
ghost use Rattle.texts.specs.Put.{PutIs};

// Puts a byte at a place, if there is room for it; returns the next place.
pub fn put_byte(b: u8, out: &mut [u8], at: usize) -> usize
    ensures { PutIs (b ∷ []) out.old at result out.new }
{
    if at < out.len() {
        out[at] = b;
        at + 1
    } else {
        at
    }
}

// Bytes, one after the other.
pub fn put_bytes(text: &[u8], out: &mut [u8], at: usize) -> usize
    ensures { PutIs text.now out.old at result out.new }
{
    let mut place = at;
    for b in text {
        place = put_byte(*b, out, place);
    }
    place
}

// A digit, 0 to 9.
fn put_digit(n: u64, out: &mut [u8], at: usize) -> usize
    requires { n < 10 }
    ensures { PutIs ((48 + n) ∷ []) out.old at result out.new }
{
    put_byte(b'0' + n as u8, out, at)
}

// A number in decimal, up to this many digits.
pub fn put_digits(digits: u8, n: u64, out: &mut [u8], at: usize) -> usize
    ensures { PutIs (decimal_of digits n) out.old at result out.new }
{
    if digits == 0 {
        at
    } else if n < 10 {
        put_digit(n, out, at)
    } else {
        let place = put_digits(digits - 1, n / 10, out, at);
        put_digit(n % 10, out, place)
    }
}

// A number in decimal.
pub fn put_decimal(n: u64, out: &mut [u8], at: usize) -> usize
    ensures { PutIs (decimal n) out.old at result out.new }
{
    put_digits(20, n, out, at)
}

// A name and a number.
pub fn put_field(name: &[u8], n: u64, out: &mut [u8], at: usize) -> usize
    ensures { PutIs (name.now ++ decimal n) out.old at result out.new }
{
    let place = put_bytes(name, out, at);
    put_decimal(n, out, place)
}

// A flag as a number.
pub fn bit(on: bool) -> u64
    ensures { result ≡ bit_of on }
{
    u64::from(on)
}

// A hexadecimal digit.
fn digit(capital: bool, n: u8) -> u8
    requires { n < 16 }
    ensures { result ≡ digit_of capital n }
{
    if n < 10 {
        b'0' + n
    } else if capital {
        b'A' - 10 + n
    } else {
        b'a' - 10 + n
    }
}

// A byte in hexadecimal, two digits.
pub fn put_hexadecimal(capital: bool, byte: u8, out: &mut [u8], at: usize) -> usize
    ensures { PutIs (hexadecimal capital byte) out.old at result out.new }
{
    let place = put_byte(digit(capital, byte / 16), out, at);
    put_byte(digit(capital, byte % 16), out, place)
}

// A byte in hexadecimal, with a space before it.
pub fn put_spaced(byte: u8, out: &mut [u8], at: usize) -> usize
    ensures { PutIs (spaced (byte ∷ [])) out.old at result out.new }
{
    let place = put_byte(b' ', out, at);
    put_hexadecimal(false, byte, out, place)
}

// Bytes in hexadecimal, with a space before each, one after the other.
pub fn put_all_spaced(bytes: &[u8], out: &mut [u8], at: usize) -> usize
    ensures { PutIs (spaced bytes.now) out.old at result out.new }
{
    let mut place = at;
    for byte in bytes {
        place = put_spaced(*byte, out, place);
    }
    place
}

// The first count bytes, or all if there are fewer.
pub fn front(bytes: &[u8], count: usize) -> &[u8]
    ensures { result.now ≡ take count bytes.now }
{
    &bytes[..count.min(bytes.len())]
}

// The value of a hexadecimal digit, 0 to 9 or a to f.
fn value(c: u8) -> u8
    ensures { result ≡ value_of c }
{
    if c < b'a' { c % 16 } else { c % 16 + 9 }
}

// The byte of two hexadecimal digits.
pub fn byte_of(a: u8, b: u8) -> u8
    ensures { result ≡ byte_of a b }
{
    value(a) % 16 * 16 + value(b) % 16
}
