// The modem chip for programs in C and Rust, run over a script of accesses, with a number for each.
#![tactic(auto, using(base::proofs::Choices::choices))]

ghost use Rattle.std.specs.Prelude.{◌≡◌, ◌%◌, MatchResult};
ghost use Rattle.base.specs.Refusal.{number};
ghost use Rattle.recording.specs.Recording.{RunIs};
ghost use Rattle.modem_c.specs.Script.{accessed_as, register_of, on_register, mark_of, out_number, out_character, counting, on_tick, accessed, answers};

use base::Refusal;
use modem::{Carried, Chip, Mark};

// The chip after an access, and what it gives.
#[derive(Clone, Copy)]
struct Accessed {
    number: u8,
    chip: Chip,
}

fn register_of(low: u8) -> usize
    ensures { result ≡ register_of low }
{
    if low < 10 {
        usize::from(low)
    } else {
        usize::from(low) + 245
    }
}

// 0, or the number of the refusal.
fn refusal_number<T: Drop>(answer: Result<T, Refusal>) -> u8
    ensures { MatchResult answer (λ given. result ≡ 0) (λ why. result ≡ number why % 256) }
{
    match answer {
        Ok(_) => 0,
        Err(why) => (why.number() % 256) as u8,
    }
}

// Operations 0 to 2.
fn on_register(x: Chip, operation: u8, n: usize, v: u8) -> Accessed
    ensures { accessed_as result ≡ on_register x operation n v }
{
    match operation {
        0 => {
            let looked = modem::look(x, n);
            Accessed {
                number: looked.value,
                chip: looked.chip,
            }
        }
        1 => Accessed {
            number: refusal_number(modem::read(x, n)),
            chip: x,
        },
        _ => Accessed {
            number: refusal_number(modem::write(x, n, v)),
            chip: modem::put(x, n, v),
        },
    }
}

fn mark_of(n: u8) -> Mark
    ensures { result ≡ mark_of n }
{
    match n {
        1 => Mark::Overrun,
        2 => Mark::Framing,
        _ => Mark::Sound,
    }
}

fn out_number(carried: Carried) -> u8
    ensures { result ≡ out_number carried }
{
    match carried {
        Carried::Silence => 0,
        Carried::Nine(_, false, _) => 1,
        Carried::Nine(_, true, _) => 2,
    }
}

fn out_character(carried: Carried) -> u8
    ensures { result ≡ out_character carried }
{
    match carried {
        Carried::Silence => 0,
        Carried::Nine(c, _, _) => c,
    }
}

fn with_count(x: Chip, v: u8) -> Chip
    ensures { result ≡ counting x v }
{
    Chip {
        count: x.count % 16777216 * 256 + u32::from(v),
        ..x
    }
}

// Operations 3 to 15.
fn on_tick(x: Chip, operation: u8, low: u8, v: u8) -> Accessed
    ensures { accessed_as result ≡ on_tick x operation low v }
{
    let (number, chip) = match operation {
        3 => (0, modem::arrive(x, Carried::Silence)),
        4 => (
            0,
            modem::arrive(x, Carried::Nine(v, low % 2 == 1, mark_of(low / 2))),
        ),
        5 => {
            let ended = modem::end_tick(x);
            (out_number(ended.carried), ended.chip)
        }
        6 => (out_character(modem::end_tick(x).carried), x),
        7 => (0, modem::fresh()),
        _ => (0, with_count(x, v)),
    };
    Accessed { number, chip }
}

#[tactic(auto, using(base::proofs::Choices::choices), unfolding(crate::specs::Script::accessed))]
fn access(x: Chip, first: u8, v: u8) -> Accessed
    ensures { accessed_as result ≡ accessed x first v }
{
    if first / 16 < 3 {
        on_register(x, first / 16, register_of(first % 16), v)
    } else {
        on_tick(x, first / 16, first % 16, v)
    }
}

// What each access of a script gives, from a fresh chip on: at the front of events, for as many accesses as both have room for. Returns their number.
#[unsafe(no_mangle)]
pub extern "C" fn nengapiko_modem(script: &[u8], events: &mut [u8]) -> usize
    ensures { RunIs (answers script.now) events.old result events.new }
{
    let mut x = modem::fresh();
    let count = events.len().min(script.len() / 2);
    for i in 0..count {
        let accessed = access(x, script[2 * i], script[2 * i + 1]);
        events[i] = accessed.number;
        x = accessed.chip;
    }
    count
}
