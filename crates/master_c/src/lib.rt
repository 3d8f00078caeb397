// A master for programs in C: its state as words that the caller lends, and its tick.
#![tactic(auto, using(base::proofs::Choices::choices))]

ghost use Rattle.std.specs.Prelude.{◌<◌, ◌^◌, ◌≡◌};
ghost use Rattle.line.specs.Heard.{heard_of};
ghost use Rattle.turns.specs.Told.{master_tells};
ghost use Rattle.master_c.specs.Words.{stage_word, stage_by, stage_of, message_at, timer_at, noted_at, front_words, end_words, packed, unpacked, limit_at};
ghost use Rattle.master_c.specs.Words.{StageFits, MessageFits, TimerFits, MasterFits};
ghost use Rattle.master_c.specs.Tick.{told_attempts, request_of, MasterTicks};

use line::Heard;
use turns::{Master, MasterTold, Message, Noted, Request, Stage, Timer};

// A stage as a program in C keeps it: its number, and 16 times the number that it holds.
fn stage_word(stage: Stage) -> u64
    ensures { result ≡ stage_word stage }
{
    match stage {
        Stage::Free => 0,
        Stage::Waiting => 1,
        Stage::Sending(n) => 2 + 16 * u64::from(n),
        Stage::Awaiting(n) => 3 + 16 * u64::from(n),
    }
}

fn stage_by(number: u64, n: u16) -> Stage
    ensures { result ≡ stage_by number n }
{
    match number {
        1 => Stage::Waiting,
        2 => Stage::Sending(n),
        3 => Stage::Awaiting(n),
        _ => Stage::Free,
    }
}

fn stage_of(word: u64) -> Stage
    ensures { result ≡ stage_of word }
{
    stage_by(word % 16, (word / 16 % 0x10000) as u16)
}

fn message_at(words: &[u64], place: u16) -> Message
    ensures { result ≡ message_at words.now place }
{
    let i = usize::from(place);
    Message {
        header: state_words::header_at(words, place),
        stage: stage_of(state_words::word_at(words, i + 6)),
        length: state_words::u16_at(words, i + 7),
        attempts: state_words::u16_at(words, i + 8),
    }
}

fn timer_at(words: &[u64], place: u16) -> Timer
    ensures { result ≡ timer_at words.now place }
{
    let i = usize::from(place);
    Timer {
        next: state_words::u32_at(words, i),
        window: state_words::u32_at(words, i + 1),
        quiet: state_words::u32_at(words, i + 2),
    }
}

fn noted_at(words: &[u64], place: u16) -> Noted
    ensures { result ≡ noted_at words.now place }
{
    let i = usize::from(place);
    Noted {
        long: state_words::flag_at(words, i),
        address: state_words::word_at(words, i + 1),
    }
}

// The master that some words stand for.
pub fn unpack(words: &[u64; 40]) -> Master
    ensures { result ≡ unpacked words.now }
{
    Master {
        primary: state_words::flag_at(words, 0),
        profile: state_words::profile_at(words, 1),
        retries: state_words::u8_at(words, 6),
        deaf: state_words::flag_at(words, 7),
        burst: state_words::flag_at(words, 8),
        timer: timer_at(words, 9),
        receiver: state_words::receiver_at(words, 12),
        noted: noted_at(words, 28),
        message: message_at(words, 30),
    }
}

fn front_words(m: Master) -> [u64; 12]
    ensures { result ≡ front_words m }
{
    [
        u64::from(m.primary),
        u64::from(m.profile.sto),
        u64::from(m.profile.hold),
        u64::from(m.profile.rt2),
        u64::from(m.profile.rt1p),
        u64::from(m.profile.rt1s),
        u64::from(m.retries),
        u64::from(m.deaf),
        u64::from(m.burst),
        u64::from(m.timer.next),
        u64::from(m.timer.window),
        u64::from(m.timer.quiet),
    ]
}

fn end_words(limit: u8, m: Master) -> [u64; 12]
    ensures { result ≡ end_words limit m }
{
    let g = m.message;
    [
        u64::from(m.noted.long),
        m.noted.address,
        u64::from(g.header.kind),
        u64::from(g.header.long),
        u64::from(g.header.primary),
        u64::from(g.header.burst),
        g.header.address,
        u64::from(g.header.command),
        stage_word(g.stage),
        u64::from(g.length),
        u64::from(g.attempts),
        u64::from(limit),
    ]
}

// The words of a master and its data limit.
pub fn pack(words: &mut [u64; 40], limit: u8, m: Master)
    ensures { words.new ≡ packed limit m }
{
    state_words::put(words, 0, &front_words(m));
    state_words::put(words, 12, &state_words::receiver_words(m.receiver));
    state_words::put(words, 28, &end_words(limit, m));
}

// The data limit that some words hold.
pub fn limit_at(words: &[u64; 40]) -> u8
    ensures { result ≡ limit_at words.now }
{
    state_words::u8_at(words, 39)
}

// The next three do nothing but call each other. The contract of each says that the numbers of a value are within their types, which the prover knows of a parameter; `master_kept` needs it.
// A data limit is within its type.
pub fn limit_fits(limit: u8)
    ensures { limit < 2 ^ 8 }
{}

fn stage_fits(stage: Stage)
    ensures { StageFits stage }
{}

// Every number of a master is within its type.
pub fn master_fits(m: Master)
    ensures { MasterFits m }
{
    state_words::receiver_fits(m.receiver);
    stage_fits(m.message.stage);
}

// What a master tells its host, as the number that a program in C reads.
pub fn told_number(told: MasterTold) -> u64
    ensures { result ≡ (master_tells told).number }
{
    match told {
        MasterTold::Nothing => 0,
        MasterTold::Answered(_) => 1,
        MasterTold::GivenUp(_) => 2,
        MasterTold::BroadcastSent => 3,
    }
}

// The attempts of a message that is given up, or 0, as a program in C reads them.
pub fn told_attempts(told: MasterTold) -> u64
    ensures { result ≡ told_attempts told }
{
    match told {
        MasterTold::GivenUp(n) => u64::from(n),
        _ => 0,
    }
}

// A tick of the master that the words stand for. Lent are the data of a request, the buffer that holds the master's STX and the one for the data of the frame that it hears.
fn tick(
    words: &mut [u64; 40],
    frame: &mut [u8; 284],
    bytes: &mut [u8; 255],
    heard: Heard,
    call: Option<Request>,
    put: &[u8],
    results: &mut [u64; 17],
) -> u32
    ensures { MasterTicks words frame bytes heard call put.now results result }
{
    let limit = limit_at(words);
    let t = master::tick(limit, unpack(words), heard, call, put, frame, bytes);
    master_fits(t.master);
    limit_fits(limit);
    pack(words, limit, t.master);
    *results = state_words::tick_numbers(
        u64::from(party::sent_number(t.sent)),
        told_number(t.told),
        told_attempts(t.told),
        t.event,
    );
    party::call_number(t.result)
}

// The host's request of these fields, or none.
pub fn request_of(
    requests: bool,
    preamble: usize,
    revision: u8,
    long: bool,
    address: u64,
    command: u8,
) -> Option<Request>
    ensures { result ≡ request_of requests preamble revision long address command }
{
    requests.then_some(Request {
        preamble,
        revision,
        long,
        address,
        command,
    })
}

// A tick of a master; returns 0, or the number of the request's refusal.
pub fn nengapiko_master_tick(
    state: &mut [u64; 40],
    frame: &mut [u8; 284],
    bytes: &mut [u8; 255],
    kind: u8,
    character: u8,
    requests: bool,
    preamble: usize,
    revision: u8,
    long: bool,
    address: u64,
    command: u8,
    put: &[u8],
    results: &mut [u64; 17],
) -> u32
    ensures { MasterTicks state frame bytes (heard_of kind character) (request_of requests preamble revision long address command) put.now results result }
{
    let heard = line::heard_of(kind, character);
    let call = request_of(requests, preamble, revision, long, address, command);
    tick(state, frame, bytes, heard, call, put, results)
}
