// The exclusive-or of bytes, worked out a 64-bit word at a time.
#![tactic(auto)]

ghost use Rattle.std.specs.Prelude.{◌≡◌, ◌+◌, ◌*◌, ◌/◌, ◌%◌, ◌≤◌, ◌<◌, length, take, drop};
ghost use Rattle.frame.specs.Check.{xor_from, exclusive_or};
ghost use Rattle.frame_check.specs.Words.{NumberIs, folded, every_other, every_other_of16, xor_onto, in_blocks, in_words};

// Eight bytes as a word, the first the least significant. It is compiled to one load.
fn word(p: &[u8], i: usize) -> u64
    requires { i + 8 ≤ length p.now }
    ensures { NumberIs p.now i 8 result }
{
    u64::from_le_bytes([
        p[i],
        p[i + 1],
        p[i + 2],
        p[i + 3],
        p[i + 4],
        p[i + 5],
        p[i + 6],
        p[i + 7],
    ])
}

// The exclusive-or of a word's eight bytes.
#[tactic(auto, using(crate::proofs::Words::folded_word), unfolding(crate::specs::Words::halves))]
fn fold(w: u64) -> u8
    ensures { result ≡ folded w }
{
    let a = w % 4294967296 ^ w / 4294967296;
    let b = a % 65536 ^ a / 65536;
    let c = b % 256 ^ b / 256;
    (c % 256) as u8
}

// The exclusive-or of every second word of the eight from i on. Written out, it is compiled to vectors.
fn every_other(p: &[u8], i: usize) -> u64
    requires { i + 56 ≤ length p.now }
    ensures { folded result ≡ every_other p.now i }
{
    (word(p, i) ^ word(p, i + 16)) ^ (word(p, i + 32) ^ word(p, i + 48))
}

// The exclusive-or of every second word of the sixteen from i on.
fn every_other_of_16(p: &[u8], i: usize) -> u64
    requires { i + 120 ≤ length p.now }
    ensures { folded result ≡ every_other_of16 p.now i }
{
    every_other(p, i) ^ every_other(p, i + 64)
}

// The exclusive-or of x and the first n blocks of sixteen words, as a word. The two sums are compiled to one vector.
fn xor_blocks(x: u8, bytes: &[u8], n: usize) -> u64
    requires { n * 128 ≤ length bytes.now }
    ensures { folded result ≡ xor_from x (take (n * 128) bytes.now) }
{
    let mut a = u64::from(x);
    let mut b: u64 = 0;
    for i in 0..n {
        a ^= every_other_of_16(bytes, i * 128);
        b ^= every_other_of_16(bytes, i * 128 + 8);
    }
    a ^ b
}

// The exclusive-or of a word and the half block after the blocks, where there is one, as a word.
fn xor_half_block(first: u64, bytes: &[u8]) -> u64
    ensures { folded result ≡ xor_onto first bytes.now (in_blocks bytes.now) (length bytes.now % 128 / 64 * 64) }
{
    let n = bytes.len();
    if n % 128 < 64 {
        first
    } else {
        let start = n / 128 * 128;
        (first ^ every_other(bytes, start)) ^ every_other(bytes, start + 8)
    }
}

// The exclusive-or of a word and so many words from a start on, as a word.
fn xor_words(first: u64, bytes: &[u8], start: usize, count: usize) -> u64
    requires { start + count * 8 ≤ length bytes.now }
    ensures { folded result ≡ xor_onto first bytes.now start (count * 8) }
{
    let mut sum = first;
    for i in 0..count {
        sum ^= word(bytes, start + i * 8);
    }
    sum
}

// The exclusive-or of x and all whole words, as a word. After the longest frame's blocks there are none left.
fn xor_long(x: u8, bytes: &[u8]) -> u64
    ensures { folded result ≡ xor_from x (take (in_words bytes.now) bytes.now) }
{
    let n = bytes.len();
    let blocks = xor_blocks(x, bytes, n / 128);
    if n % 128 < 8 {
        blocks
    } else {
        let halves = xor_half_block(blocks, bytes);
        xor_words(halves, bytes, n / 64 * 64, n % 64 / 8)
    }
}

// The bytes after the whole words, as a word: they are the high ones of the last eight bytes.
fn last_bytes(bytes: &[u8]) -> u64
    requires { 8 ≤ length bytes.now }
    ensures { folded result ≡ exclusive_or (drop (in_words bytes.now) bytes.now) }
{
    let n = bytes.len();
    word(bytes, n - 8) >> 8 >> (56 - n % 8 * 8)
}

// The exclusive-or of a word and the bytes after the whole words.
fn with_last(sum: u64, bytes: &[u8]) -> u8
    requires { 8 ≤ length bytes.now }
    ensures { result ≡ xor_from (folded sum) (drop (in_words bytes.now) bytes.now) }
{
    fold(sum ^ last_bytes(bytes))
}

// The exclusive-or of x and fewer than sixteen bytes, as short frames have: one word at most.
fn xor_short(x: u8, bytes: &[u8]) -> u8
    requires { length bytes.now < 16 }
    ensures { result ≡ xor_from x bytes.now }
{
    if bytes.len() < 8 {
        frame::xor_bytes(x, bytes)
    } else {
        with_last(u64::from(x) ^ word(bytes, 0), bytes)
    }
}

// The exclusive-or of x and some bytes: by words, where there are at least eight bytes. Fewer than eight words are compiled without a loop.
pub fn xor_from(x: u8, bytes: &[u8]) -> u8
    ensures { result ≡ xor_from x bytes.now }
{
    if bytes.len() < 16 {
        xor_short(x, bytes)
    } else if bytes.len() < 64 {
        let words = xor_words(u64::from(x), bytes, 0, bytes.len() % 64 / 8);
        with_last(words, bytes)
    } else {
        with_last(xor_long(x, bytes), bytes)
    }
}
