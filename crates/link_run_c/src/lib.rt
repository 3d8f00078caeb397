// A run of the link for programs in C and Rust, in which each master starts at a tick of its own.
#![tactic(auto, using(base::proofs::Choices::choices))]

ghost use Rattle.std.specs.Prelude.{◌≡◌, length};
ghost use Rattle.link_run_c.specs.Settings.{profile_of, setting_of, settings_in, EndsAs, RunsAs};

use base::Refusal;
use line::Profile;
use link_run::StartTicks;
use link_start::Setting;

// What a slot's device is started with; a preamble of 0 stands for a slot without one.
fn setting_of(preamble: u8, polling: u8, unique: u64) -> Option<Setting>
    ensures { result ≡ setting_of preamble polling unique }
{
    if 0 < preamble {
        Some(Setting {
            preamble: preamble as usize,
            polling,
            unique,
        })
    } else {
        None
    }
}

// There is a number for each slot: what the arrays' types say, in words that the promise below needs.
fn six_each(preambles: &[u8], pollings: &[u8], uniques: &[u64])
    requires { (length preambles.now ≡ 6) × (length pollings.now ≡ 6) × (length uniques.now ≡ 6) }
    ensures { (length preambles.now ≡ 6) × (length pollings.now ≡ 6) × (length uniques.now ≡ 6) }
{}

fn settings_of(preambles: &[u8; 6], pollings: &[u8; 6], uniques: &[u64; 6]) -> [Option<Setting>; 6]
    ensures { result ≡ settings_in preambles.now pollings.now uniques.now }
{
    six_each(preambles, pollings, uniques);
    let mut settings = [None; 6];
    for i in 0..6 {
        settings[i] = setting_of(preambles[i], pollings[i], uniques[i]);
    }
    settings
}

// How many numbers a run gave, and in refusal the number of a refused start, or 0.
fn end_run(ended: Result<usize, Refusal>, refusal: &mut u32) -> usize
    ensures { EndsAs ended refusal result }
{
    match ended {
        Ok(n) => {
            *refusal = 0;
            n
        }
        Err(why) => {
            *refusal = why.number();
            0
        }
    }
}

// The number of each tick of a run on a link with a data limit, at the front of events, for as many ticks as the list and the events hold, and how many they are. Where a start is refused there are none, and refusal is its number, 2, 3, 4 or 9; else refusal is 0.
#[unsafe(no_mangle)]
pub extern "C" fn nengapiko_run(
    sto: u16,
    hold: u16,
    rt2: u16,
    rt1p: u16,
    rt1s: u16,
    retries: u8,
    limit: usize,
    preambles: &[u8; 6],
    pollings: &[u8; 6],
    uniques: &[u64; 6],
    primary: u64,
    secondary: u64,
    ticks: &[u8],
    events: &mut [u8],
    refusal: &mut u32,
) -> usize
    ensures { RunsAs (profile_of sto hold rt2 rt1p rt1s) retries limit
        (settings_in preambles.now pollings.now uniques.now) primary secondary ticks.now events refusal result }
{
    let profile = Profile {
        sto,
        hold,
        rt2,
        rt1p,
        rt1s,
    };
    let starts = StartTicks { primary, secondary };
    let settings = settings_of(preambles, pollings, uniques);
    let ended = link_run::late_run(limit, profile, retries, settings, starts, ticks, events);
    end_run(ended, refusal)
}
