// The load from a seed number: a player script, written into a lent buffer.
#![tactic(auto, using(base::proofs::Choices::choices))]

ghost use Rattle.std.specs.Prelude.{◌≡◌, [], ◌+◌, ◌*◌, ◌≤◌, ◌<◌, length, get_or, take};
ghost use Rattle.base.specs.Store.{stored};
ghost use Rattle.load_writer.specs.Load.{draw, call, opening, mark, front, pair_tick, asked_of, asks, wish_of, length_of, lower, upper_party, upper};
ghost use Rattle.load_writer.specs.Load.{stop_at, drawn_from, load, entry_bytes, script_bytes};
ghost use Rattle.load_writer.specs.Write.{most_records, by_room, load_answer, LoadIs};
ghost use Rattle.load_writer.specs.Fits.{Fits};
ghost use Rattle.base.specs.Refusal.{called_as};

use base::Refusal;
use player_script::Entry;

// The number that is drawn after a number.
#[tactic(auto, using(base::proofs::Choices::choices), unfolding(crate::specs::Load::draw))]
fn draw(x: u32) -> u32
    ensures { result ≡ draw x }
{
    let a = x ^ (x << 13);
    let b = a ^ (a >> 17);
    b ^ (b << 5)
}

// A record.
fn call(tick: usize, party: usize, action: u8, argument: u8) -> Entry
    ensures { result ≡ call tick party action argument }
{
    Entry {
        tick,
        party,
        action,
        argument,
    }
}

// A record of the opening, by its place in the definition's list.
#[tactic(auto, using(base::proofs::Choices::choices, crate::proofs::Places::opening_at), unfolding(crate::specs::Load::opening))]
fn opening_record(i: usize) -> Entry
    requires { i < 8 }
    ensures { result ≡ get_or opening i (stop_at 0) }
{
    match i {
        0 => call(0, 0, 3, 8),
        1 => call(0, 1, 3, 3),
        2 => call(250, 0, 3, 2),
        3 => call(271, 3, 2, 2),
        4 => call(292, 2, 4, 2),
        5 => call(330, 0, 3, 2),
        6 => call(341, 3, 2, 2),
        _ => call(391, 2, 5, 2),
    }
}

// A byte of the first number.
fn mark(x: u32, q: usize) -> Entry
    requires { q < 4 }
    ensures { result ≡ mark x q }
{
    call(400, 4 + q, 2, ((x >> (24 - 8 * q)) % 256) as u8)
}

// A record of the opening or the mark.
#[tactic(auto, using(base::proofs::Choices::choices, crate::proofs::Places::front_opening, crate::proofs::Places::front_mark))]
fn front_record(x: u32, i: usize) -> Entry
    requires { i < 12 }
    ensures { result ≡ get_or (front x) i (stop_at 0) }
{
    if i < 8 {
        opening_record(i)
    } else {
        mark(x, i - 8)
    }
}

// The tick of a pair.
fn pair_tick(k: usize) -> usize
    requires { k ≤ 32762 }
    ensures { (result ≡ pair_tick k) × (result < 65536) }
{
    401 + (2 * k - k / 8)
}

// The unique address that a master asks.
fn asked_of(v: u32) -> u8
    requires { v < 16 }
    ensures { (result ≡ asked_of v) × (result ≤ 7) }
{
    match v {
        0..=7 => v as u8,
        8..=11 => 2,
        _ => (v - 8) as u8,
    }
}

// A master's request.
#[tactic(auto, using(base::proofs::Choices::choices, crate::proofs::Places::calls))]
fn asks(tick: usize, party: usize, x: u32) -> Entry
    ensures { result ≡ asks tick party x }
{
    let address = asked_of(x / 16 % 16);
    if x / 256 % 4 == 0 {
        call(tick, party, 1, (address + 62) % 64)
    } else {
        call(tick, party, 3, address)
    }
}

// What party 2 answers with.
fn wish_of(k: u32) -> u8
    ensures { result ≡ wish_of k }
{
    match k {
        0 => 4,
        1 => 2,
        _ => 5,
    }
}

// How many bytes an answer has.
fn length_of(x: u32) -> u8
    ensures { result ≡ length_of x }
{
    (2 + x / 1024 % 32) as u8
}

// The first record of a pair.
#[tactic(auto, using(base::proofs::Choices::choices, crate::proofs::Places::calls), unfolding(crate::specs::Load::lower))]
fn lower(tick: usize, x: u32) -> Entry
    ensures { result ≡ lower tick x }
{
    match x % 16 {
        0..=3 => asks(tick, (x % 2) as usize, x),
        4..=13 => call(tick, 2, wish_of(x / 256 % 4), length_of(x)),
        _ => call(tick, 3, 2, length_of(x)),
    }
}

// The party of the second record of a pair.
fn upper_party(w: u32) -> usize
    ensures { result ≡ upper_party w }
{
    match w {
        0..=9 => 4,
        10..=11 => 5,
        12..=13 => 6,
        _ => 7,
    }
}

// The second record of a pair.
#[tactic(auto, using(base::proofs::Choices::choices, crate::proofs::Places::calls), unfolding(crate::specs::Load::upper))]
fn upper(tick: usize, x: u32) -> Entry
    ensures { result ≡ upper tick x }
{
    call(tick, upper_party(x % 16), 2, length_of(x))
}

// A record's four bytes.
#[tactic(auto, using(base::proofs::Choices::choices, crate::proofs::Puts::record_put))]
fn put_record(out: &mut [u8], at: usize, e: Entry)
    requires { (at + 4 ≤ length out.old) × Fits e }
    ensures { out.new ≡ stored out.old at (entry_bytes e []) }
{
    out[at..at + 4].copy_from_slice(&[
        (e.tick / 256) as u8,
        (e.tick % 256) as u8,
        (e.party * 16) as u8 + e.action,
        e.argument,
    ]);
}

// Puts the first n records of the opening and the mark at the front.
#[tactic(auto, using(base::proofs::Choices::choices, crate::proofs::Places::fitting, crate::proofs::Puts::fronts))]
fn put_front(out: &mut [u8], x: u32, n: usize)
    requires { (n ≤ 12) × (4 * n ≤ length out.old) }
    ensures { out.new ≡ stored out.old 0 (script_bytes (take n (front x))) }
{
    for i in 0..n {
        put_record(out, 4 * i, front_record(x, i));
    }
}

// Puts the last record or two, from pair k on.
#[tactic(auto, using(base::proofs::Choices::choices, crate::proofs::Places::fitting, crate::proofs::Puts::still_room, crate::proofs::Puts::lasts))]
fn put_last(out: &mut [u8], at: usize, k: usize, x: u32, n: usize)
    requires { (1 ≤ n) × (n ≤ 2) × (k ≤ 32762) × (at + 4 * n ≤ length out.old) }
    ensures { out.new ≡ stored out.old at (script_bytes (drawn_from k x n)) }
{
    let tick = pair_tick(k);
    let stop = call(tick, 0, 0, 0);
    if n == 1 {
        put_record(out, at, stop);
    } else {
        put_record(out, at, lower(tick, x));
        put_record(out, at + 4, stop);
    }
}

// Puts so many drawn records, the stop among them, at the front.
#[tactic(auto, using(base::proofs::Choices::choices, crate::proofs::Places::fitting, crate::proofs::Puts::still_room, crate::proofs::Puts::draws))]
fn put_drawn(out: &mut [u8], first: u32, count: usize)
    requires { (1 ≤ count) × (count ≤ 65524) × (4 * count ≤ length out.old) }
    ensures { out.new ≡ stored out.old 0 (script_bytes (drawn_from 0 first count)) }
{
    let mut k = 0;
    let mut x = first;
    let mut n = count;
    let mut at = 0;
    // Two records at a time, so the places jump.
    while 2 < n {
        let tick = pair_tick(k);
        let y = draw(x);
        put_record(out, at, lower(tick, x));
        put_record(out, at + 4, upper(tick, y));
        x = draw(y);
        k += 1;
        n -= 2;
        at += 8;
    }
    put_last(out, at, k, x, n);
}

// Puts a script of so many records at the front.
#[tactic(auto, using(base::proofs::Choices::choices, crate::proofs::Places::fitting, crate::proofs::Puts::scripts))]
fn put_script(out: &mut [u8], seed: u32, count: usize)
    requires { (1 ≤ count) × (count ≤ most_records) × (4 * count ≤ length out.old) }
    ensures { out.new ≡ stored out.old 0 (script_bytes (load seed count)) }
{
    let x = draw(seed);
    if count <= 12 {
        let last = count - 1;
        let stop = call(front_record(x, last).tick, 0, 0, 0);
        put_front(out, x, last);
        put_record(&mut out[4 * last..], 0, stop);
    } else {
        put_front(out, x, 12);
        put_drawn(&mut out[48..], draw(x), count - 12);
    }
}

// The answer, by the room in a buffer of so many bytes.
#[tactic(auto, using(base::proofs::Choices::choices, crate::proofs::Answers::room_enough, crate::proofs::Answers::room_short))]
fn by_room(count: usize, room: usize) -> Result<usize, Refusal>
    requires { count ≤ most_records }
    ensures { called_as result ≡ by_room (4 * count) room }
{
    if 4 * count <= room {
        Ok(4 * count)
    } else {
        Err(Refusal::BufferShort)
    }
}

// What the writer answers, for a buffer of so many bytes.
#[tactic(auto, using(base::proofs::Choices::choices, crate::proofs::Answers::answer_is, base::proofs::Choices::inside_high))]
fn answer(seed: u32, count: usize, room: usize) -> Result<usize, Refusal>
    ensures { called_as result ≡ load_answer seed count room }
{
    if seed == 0 || base::outside(count, 1, 65536) {
        return Err(Refusal::BadLoad);
    }
    by_room(count, room)
}

// Writes the script of a seed, so many records with the stop among them, at the front of the buffer; or refuses and leaves the buffer as it was.
#[tactic(auto, using(base::proofs::Choices::choices, crate::proofs::Answers::writes))]
pub fn write(seed: u32, count: u32, out: &mut [u8]) -> Result<usize, Refusal>
    ensures { LoadIs seed count out.old result out.new }
{
    let records = count as usize;
    let end = answer(seed, records, out.len())?;
    put_script(out, seed, records);
    Ok(end)
}
