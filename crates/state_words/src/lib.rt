// A state as words of 64 bits, one for each field, in memory that a program in C lends: the fields, and the parts that master, device and tick reader share; and what is told of a tick, as numbers.
#![tactic(auto, using(base::proofs::Choices::choices))]

ghost use Rattle.std.specs.Prelude.{◌<◌, ◌^◌, ◌≡◌, ◌∷◌};
ghost use Rattle.base.specs.Store.{stored};
ghost use Rattle.state_words.specs.Fields.{word_at, number_at, flag_at};
ghost use Rattle.state_words.specs.Reader.{header_at, profile_at, place_word, place_by, place_of, damage_at, receiver_words, receiver_at};
ghost use Rattle.state_words.specs.Numbers.{no_frame, frame_numbers, tick_numbers, whole_at, event_by, event_at};
ghost use Rattle.state_words.specs.Fits.{HeaderFits, ProfileFits, PlaceFits, ReceiverFits};

use frame::Header;
use line::{Event, FrameDamage, Place, Profile, Receiver, Whole};

// The damage of a frame that is sound.
const NO_DAMAGE: FrameDamage = FrameDamage {
    parity: false,
    overrun: false,
    framing: false,
    address: false,
    check: false,
};

// The word at a place, or 0 past the last.
pub fn word_at(words: &[u64], place: usize) -> u64
    ensures { result ≡ word_at words.now place }
{
    words.get(place).copied().unwrap_or(0)
}

// The lowest 8, 16 or 32 bits of the word at a place. Three functions of one line: a cast to a type parameter would want a trait of its own.
pub fn u8_at(words: &[u64], place: usize) -> u8
    ensures { result ≡ number_at 8 words.now place }
{
    (word_at(words, place) % 0x100) as u8
}

pub fn u16_at(words: &[u64], place: usize) -> u16
    ensures { result ≡ number_at 16 words.now place }
{
    (word_at(words, place) % 0x10000) as u16
}

pub fn u32_at(words: &[u64], place: usize) -> u32
    ensures { result ≡ number_at 32 words.now place }
{
    (word_at(words, place) % 0x100000000) as u32
}

// Whether the word at a place is 1.
pub fn flag_at(words: &[u64], place: usize) -> bool
    ensures { result ≡ flag_at words.now place }
{
    word_at(words, place) == 1
}

// Puts some words from a place on, as many as there is room for.
#[tactic(auto, using(base::proofs::Choices::choices, crate::proofs::Puts::putting))]
pub fn put(words: &mut [u64], place: u8, part: &[u64])
    ensures { words.new ≡ stored words.old place part.now }
{
    let start = place as usize;
    if start < words.len() {
        let count = part.len().min(words.len() - start);
        words[start..start + count].copy_from_slice(&part[..count]);
    }
}

// The header from a place on; a place is at most 65,535, so that no sum wraps.
pub fn header_at(words: &[u64], place: u16) -> Header
    ensures { result ≡ header_at words.now place }
{
    let i = place as usize;
    Header {
        kind: u8_at(words, i),
        long: flag_at(words, i + 1),
        primary: flag_at(words, i + 2),
        burst: flag_at(words, i + 3),
        address: word_at(words, i + 4),
        command: u8_at(words, i + 5),
    }
}

pub fn profile_at(words: &[u64], place: u16) -> Profile
    ensures { result ≡ profile_at words.now place }
{
    let i = place as usize;
    Profile {
        sto: u16_at(words, i),
        hold: u16_at(words, i + 1),
        rt2: u16_at(words, i + 2),
        rt1p: u16_at(words, i + 3),
        rt1s: u16_at(words, i + 4),
    }
}

fn place_word(place: Place) -> u64
    ensures { result ≡ place_word place }
{
    match place {
        Place::Passing => 0,
        Place::Idle => 1,
        Place::Preamble(n) => 2 + 16 * (n as u64),
        Place::First => 3,
        Place::Address(n) => 4 + 16 * (n as u64),
        Place::Expansion(n) => 5 + 16 * (n as u64),
        Place::Command => 6,
        Place::Count => 7,
        Place::Data(n) => 8 + 16 * (n as u64),
        Place::Check => 9,
    }
}

fn place_by(number: u64, n: u8) -> Place
    ensures { result ≡ place_by number n }
{
    match number {
        1 => Place::Idle,
        2 => Place::Preamble(n),
        3 => Place::First,
        4 => Place::Address(n),
        5 => Place::Expansion(n),
        6 => Place::Command,
        7 => Place::Count,
        8 => Place::Data(n),
        9 => Place::Check,
        _ => Place::Passing,
    }
}

fn damage_at(words: &[u64], place: u16) -> FrameDamage
    ensures { result ≡ damage_at words.now place }
{
    let i = place as usize;
    FrameDamage {
        parity: flag_at(words, i),
        overrun: flag_at(words, i + 1),
        framing: flag_at(words, i + 2),
        check: flag_at(words, i + 3),
        address: flag_at(words, i + 4),
    }
}

pub fn receiver_words(r: Receiver) -> [u64; 16]
    ensures { result ≡ receiver_words r }
{
    [
        r.header.kind as u64,
        r.header.long as u64,
        r.header.primary as u64,
        r.header.burst as u64,
        r.header.address,
        r.header.command as u64,
        place_word(r.place),
        r.expansion as u64,
        r.count as u64,
        r.sum as u64,
        r.gap as u64,
        r.damage.parity as u64,
        r.damage.overrun as u64,
        r.damage.framing as u64,
        r.damage.check as u64,
        r.damage.address as u64,
    ]
}

fn place_of(word: u64) -> Place
    ensures { result ≡ place_of word }
{
    place_by(word % 16, (word / 16 % 0x100) as u8)
}

pub fn receiver_at(words: &[u64], place: u8) -> Receiver
    ensures { result ≡ receiver_at words.now place }
{
    let i = place as usize;
    Receiver {
        header: header_at(words, place as u16),
        place: place_of(word_at(words, i + 6)),
        expansion: u8_at(words, i + 7),
        count: u8_at(words, i + 8),
        sum: u8_at(words, i + 9),
        gap: flag_at(words, i + 10),
        damage: damage_at(words, place as u16 + 11),
    }
}

// The next two do nothing. The contract of each says that the numbers of a value are within their types, which the prover knows of a parameter; the laws of proofs/Kept.antt need it.
fn place_fits(place: Place)
    ensures { PlaceFits place }
{}

pub fn receiver_fits(r: Receiver)
    ensures { ReceiverFits r }
{
    place_fits(r.place);
}

fn no_frame(sent: u64, told: u64, attempts: u64, event: u64) -> [u64; 17]
    ensures { result ≡ (sent ∷ told ∷ attempts ∷ event ∷ no_frame) }
{
    [
        sent, told, attempts, event, 0, 0, 0, 0, 0, 0, 0, 0, 0, 0, 0, 0, 0,
    ]
}

fn whole_frame(
    sent: u64,
    told: u64,
    attempts: u64,
    event: u64,
    w: Whole,
    m: FrameDamage,
) -> [u64; 17]
    ensures { result ≡ (sent ∷ told ∷ attempts ∷ event ∷ frame_numbers w m) }
{
    [
        sent,
        told,
        attempts,
        event,
        w.header.kind as u64,
        w.header.long as u64,
        w.header.primary as u64,
        w.header.burst as u64,
        w.header.address,
        w.expansion as u64,
        w.header.command as u64,
        w.count as u64,
        m.parity as u64,
        m.overrun as u64,
        m.framing as u64,
        m.check as u64,
        m.address as u64,
    ]
}

// What is told of a tick.
pub fn tick_numbers(sent: u64, told: u64, attempts: u64, event: Event) -> [u64; 17]
    ensures { result ≡ tick_numbers sent told attempts event }
{
    let number = event.number() as u64;
    match event {
        Event::Nothing | Event::PassedOver | Event::Broken => {
            no_frame(sent, told, attempts, number)
        }
        Event::Frame(w) => whole_frame(sent, told, attempts, number, w, NO_DAMAGE),
        Event::Damaged(w, m) => whole_frame(sent, told, attempts, number, w, m),
    }
}

fn whole_at(numbers: &[u64]) -> Whole
    ensures { result ≡ whole_at numbers.now }
{
    Whole {
        header: Header {
            kind: u8_at(numbers, 4),
            long: flag_at(numbers, 5),
            primary: flag_at(numbers, 6),
            burst: flag_at(numbers, 7),
            address: word_at(numbers, 8),
            command: u8_at(numbers, 10),
        },
        expansion: u8_at(numbers, 9),
        count: u8_at(numbers, 11),
    }
}

fn event_by(event: u64, w: Whole, m: FrameDamage) -> Event
    ensures { result ≡ event_by event w m }
{
    match event {
        1 => Event::PassedOver,
        2 => Event::Broken,
        3 => Event::Frame(w),
        4 => Event::Damaged(w, m),
        _ => Event::Nothing,
    }
}

// What a tick's numbers tell.
pub fn event_at(numbers: &[u64; 17]) -> Event
    ensures { result ≡ event_at numbers.now }
{
    event_by(
        word_at(numbers, 3),
        whole_at(numbers),
        damage_at(numbers, 12),
    )
}
