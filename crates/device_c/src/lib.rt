// A device for programs in C: its state as words that the caller lends, and its tick.
#![tactic(auto, using(base::proofs::Choices::choices))]

ghost use Rattle.std.specs.Prelude.{◌<◌, ◌^◌, ◌≡◌};
ghost use Rattle.line.specs.Heard.{heard_of};
ghost use Rattle.turns.specs.Told.{device_tells};
ghost use Rattle.device_c.specs.Words.{turn_word, turn_by, turn_of, wish_word, wish_of, settings_words, settings_at};
ghost use Rattle.device_c.specs.Words.{answering_words, answering_at, bursting_words, content_at, bursting_at, packed, joined, unpacked, limit_at};
ghost use Rattle.device_c.specs.Fits.{TurnFits, DeviceFits};
ghost use Rattle.device_tick.specs.Tick.{host_call_by};
ghost use Rattle.device_c.specs.Tick.{DeviceTicks};

use device_tick::DeviceCall;
use frame::Header;
use line::{Heard, Profile, Receiver};
use turns::{Content, Device, DeviceTold, Turn, Wish};

// What a device was started with.
#[derive(Clone, Copy)]
struct Settings {
    profile: Profile,
    preamble: u8,
    polling: u8,
    unique: u64,
}

// The request that it has in hand, and its answer.
#[derive(Clone, Copy)]
struct Answering {
    deaf: bool,
    turn: Turn,
    wish: Wish,
    length: u16,
    request: Header,
}

// Its burst mode.
#[derive(Clone, Copy)]
struct Bursting {
    burst: bool,
    primary: bool,
    due: u32,
    content: Content,
}

fn turn_word(turn: Turn) -> u64
    ensures { result ≡ turn_word turn }
{
    match turn {
        Turn::Listens => 0,
        Turn::Asked(n) => 1 + 16 * (n as u64),
        Turn::AnswerWaits => 2,
        Turn::Begins => 3,
        Turn::Answers(n) => 4 + 16 * (n as u64),
        Turn::Follows => 5,
        Turn::Bursts(n) => 6 + 16 * (n as u64),
    }
}

fn turn_by(number: u64, n: u16) -> Turn
    ensures { result ≡ turn_by number n }
{
    match number {
        1 => Turn::Asked(n),
        2 => Turn::AnswerWaits,
        3 => Turn::Begins,
        4 => Turn::Answers(n),
        5 => Turn::Follows,
        6 => Turn::Bursts(n),
        _ => Turn::Listens,
    }
}

fn turn_of(word: u64) -> Turn
    ensures { result ≡ turn_of word }
{
    turn_by(word % 16, (word / 16 % 0x10000) as u16)
}

fn wish_word(wish: Wish) -> u64
    ensures { result ≡ wish_word wish }
{
    match wish {
        Wish::Same => 0,
        Wish::On => 1,
        Wish::Off => 2,
    }
}

fn wish_of(word: u64) -> Wish
    ensures { result ≡ wish_of word }
{
    match word {
        1 => Wish::On,
        2 => Wish::Off,
        _ => Wish::Same,
    }
}

fn settings_at(words: &[u64; 41]) -> Settings
    ensures { result ≡ settings_at words.now }
{
    Settings {
        profile: state_words::profile_at(words, 0),
        preamble: state_words::u8_at(words, 5),
        polling: state_words::u8_at(words, 6),
        unique: state_words::word_at(words, 7),
    }
}

fn answering_at(words: &[u64; 41]) -> Answering
    ensures { result ≡ answering_at words.now }
{
    Answering {
        deaf: state_words::flag_at(words, 24),
        turn: turn_of(state_words::word_at(words, 25)),
        wish: wish_of(state_words::word_at(words, 26)),
        length: state_words::u16_at(words, 27),
        request: state_words::header_at(words, 28),
    }
}

fn content_at(words: &[u64], place: u16) -> Content
    ensures { result ≡ content_at words.now place }
{
    let i = place as usize;
    Content {
        given: state_words::flag_at(words, i),
        command: state_words::u8_at(words, i + 1),
        count: state_words::u8_at(words, i + 2),
    }
}

fn bursting_at(words: &[u64; 41]) -> Bursting
    ensures { result ≡ bursting_at words.now }
{
    Bursting {
        burst: state_words::flag_at(words, 34),
        primary: state_words::flag_at(words, 35),
        due: state_words::u32_at(words, 36),
        content: content_at(words, 37),
    }
}

fn join(s: Settings, r: Receiver, a: Answering, b: Bursting) -> Device
    ensures { result ≡ joined s r a b }
{
    Device {
        unique: s.unique,
        receiver: r,
        request: a.request,
        profile: s.profile,
        length: a.length,
        due: b.due,
        turn: a.turn,
        preamble: s.preamble,
        polling: s.polling,
        deaf: a.deaf,
        wish: a.wish,
        burst: b.burst,
        primary: b.primary,
        content: b.content,
    }
}

// The device that some words stand for.
pub fn unpack(words: &[u64; 41]) -> Device
    ensures { result ≡ unpacked words.now }
{
    join(
        settings_at(words),
        state_words::receiver_at(words, 8),
        answering_at(words),
        bursting_at(words),
    )
}

fn settings_words(d: Device) -> [u64; 8]
    ensures { result ≡ settings_words d.profile d.preamble d.polling d.unique }
{
    [
        d.profile.sto as u64,
        d.profile.hold as u64,
        d.profile.rt2 as u64,
        d.profile.rt1p as u64,
        d.profile.rt1s as u64,
        d.preamble as u64,
        d.polling as u64,
        d.unique,
    ]
}

fn answering_words(d: Device) -> [u64; 10]
    ensures { result ≡ answering_words d }
{
    [
        d.deaf as u64,
        turn_word(d.turn),
        wish_word(d.wish),
        d.length as u64,
        d.request.kind as u64,
        d.request.long as u64,
        d.request.primary as u64,
        d.request.burst as u64,
        d.request.address,
        d.request.command as u64,
    ]
}

fn bursting_words(limit: u8, d: Device) -> [u64; 7]
    ensures { result ≡ bursting_words limit d }
{
    [
        d.burst as u64,
        d.primary as u64,
        d.due as u64,
        d.content.given as u64,
        d.content.command as u64,
        d.content.count as u64,
        limit as u64,
    ]
}

// The words of a device and its data limit.
pub fn pack(words: &mut [u64; 41], limit: u8, d: Device)
    ensures { words.new ≡ packed limit d }
{
    state_words::put(words, 0, &settings_words(d));
    state_words::put(words, 8, &state_words::receiver_words(d.receiver));
    state_words::put(words, 24, &answering_words(d));
    state_words::put(words, 34, &bursting_words(limit, d));
}

// The data limit that some words hold.
pub fn limit_at(words: &[u64; 41]) -> u8
    ensures { result ≡ limit_at words.now }
{
    state_words::u8_at(words, 40)
}

// The next three do nothing but call each other. The contract of each says that the numbers of a value are within their types, which the prover knows of a parameter; `device_kept` needs it.
pub fn limit_fits(limit: u8)
    ensures { limit < 2 ^ 8 }
{}

fn turn_fits(turn: Turn)
    ensures { TurnFits turn }
{}

// The numbers of a device.
pub fn device_fits(d: Device)
    ensures { DeviceFits d }
{
    state_words::receiver_fits(d.receiver);
    turn_fits(d.turn);
}

// What a device tells its host, as the number that a program in C reads.
pub fn told_number(told: DeviceTold) -> u64
    ensures { result ≡ (device_tells told).number }
{
    match told {
        DeviceTold::Nothing => 0,
        DeviceTold::Request(_) => 1,
        DeviceTold::Broadcast(_) => 2,
    }
}

// A tick of the device that the words stand for. Lent are the data of an answer or of a burst content, the burst content, the buffer that holds the device's ACK or BACK and the one for the data of the frame that it hears.
fn tick(
    words: &mut [u64; 41],
    frame: &mut [u8; 284],
    bytes: &mut [u8; 255],
    contents: &mut [u8; 255],
    heard: Heard,
    call: DeviceCall,
    put: &[u8],
    results: &mut [u64; 17],
) -> u32
    ensures { DeviceTicks words frame bytes contents heard call put.now results result }
{
    let d = unpack(words);
    let limit = limit_at(words);
    let t = device_tick::tick(limit, d, heard, call, put, contents, frame, bytes);
    device_fits(t.device);
    limit_fits(limit);
    pack(words, limit, t.device);
    *results = state_words::tick_numbers(
        party::sent_number(t.sent) as u64,
        told_number(t.told),
        0,
        t.event,
    );
    party::call_number(t.result)
}

// A tick of a device; returns 0, or the number with which its host's answer or burst content is refused.
pub fn nengapiko_device_tick(
    state: &mut [u64; 41],
    frame: &mut [u8; 284],
    bytes: &mut [u8; 255],
    contents: &mut [u8; 255],
    kind: u8,
    character: u8,
    call: u8,
    command: u8,
    put: &[u8],
    results: &mut [u64; 17],
) -> u32
    ensures { DeviceTicks state frame bytes contents (heard_of kind character) (host_call_by call command) put.now results result }
{
    tick(
        state,
        frame,
        bytes,
        contents,
        line::heard_of(kind, character),
        device_tick::host_call_by(call, command),
        put,
        results,
    )
}
