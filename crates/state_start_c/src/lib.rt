// The starts for programs in C: of the tick reader, a master and a device, each in words that the caller lends.
#![tactic(auto, using(base::proofs::Choices::choices))]

ghost use Rattle.std.specs.Prelude.{◌≡◌};
ghost use Rattle.base.specs.Refusal.{accepted, called_as};
ghost use Rattle.state_start_c.specs.Start.{ReaderStarts, profile, start_number, limited, MasterStarts, DeviceStarts};

use base::Refusal;
use line::Profile;

// A reader at its start.
pub fn nengapiko_reader_start(state: &mut [u64; 16])
    ensures { ReaderStarts state }
{
    let r = line_reader::passing_reader();
    state_words::receiver_fits(r);
    *state = state_words::receiver_words(r);
}

// The profile with these numbers.
fn profile_of(sto: u16, hold: u16, rt2: u16, rt1p: u16, rt1s: u16) -> Profile
    ensures { result ≡ profile sto hold rt2 rt1p rt1s }
{
    Profile {
        sto,
        hold,
        rt2,
        rt1p,
        rt1s,
    }
}

// A data limit from 2 to 255; else refusal 9.
#[tactic(auto, using(base::proofs::Choices::choices, crate::proofs::Starts::limit_byte))]
pub fn data_limit(limit: usize) -> Result<u8, Refusal>
    ensures { called_as result ≡ limited limit (accepted limit) }
{
    if base::outside(limit, 2, 255) {
        Err(Refusal::DataLength)
    } else {
        Ok(limit as u8)
    }
}

// What a program in C reads of a start: 0, or the refusal's number.
fn start_number(started: Result<(), Refusal>) -> u32
    ensures { result ≡ start_number (called_as started) }
{
    match started {
        Ok(()) => 0,
        Err(why) => why.number(),
    }
}

// Puts a fresh master with a data limit into the words; or refusal 1, 2 or 9, and the words as they were.
#[tactic(auto, using(base::proofs::Choices::choices, crate::proofs::Starts::masters))]
fn begin_master(
    p: Profile,
    primary: bool,
    retries: u8,
    limit: usize,
    words: &mut [u64; 40],
) -> Result<(), Refusal>
    ensures { MasterStarts p primary retries limit words (start_number (called_as result)) }
{
    let m = master::start(p.checked()?, primary, retries)?;
    let limit = data_limit(limit)?;
    master_c::master_fits(m);
    master_c::pack(words, limit, m);
    Ok(())
}

// A fresh master with a data limit; or refusal 1, 2 or 9, and the words as they were.
pub fn nengapiko_master_start(
    sto: u16,
    hold: u16,
    rt2: u16,
    rt1p: u16,
    rt1s: u16,
    primary: bool,
    retries: u8,
    limit: usize,
    state: &mut [u64; 40],
) -> u32
    ensures { MasterStarts (profile sto hold rt2 rt1p rt1s) primary retries limit state result }
{
    let p = profile_of(sto, hold, rt2, rt1p, rt1s);
    start_number(begin_master(p, primary, retries, limit, state))
}

// Puts a fresh device with a data limit into the words; or refusal 1, 3, 4 or 9, and the words as they were. Not one function with `begin_master`: start, ranges and words are of other crates.
#[tactic(auto, using(base::proofs::Choices::choices, crate::proofs::Starts::devices))]
fn begin_device(
    p: Profile,
    preamble: usize,
    polling: u8,
    unique: u64,
    limit: usize,
    words: &mut [u64; 41],
) -> Result<(), Refusal>
    ensures { DeviceStarts p preamble polling unique limit words (start_number (called_as result)) }
{
    let d = device::start(p.checked()?, preamble, polling, unique)?;
    let limit = data_limit(limit)?;
    device_c::device_fits(d);
    device_c::pack(words, limit, d);
    Ok(())
}

// A fresh device with a data limit; or refusal 1, 3, 4 or 9, and the words as they were.
pub fn nengapiko_device_start(
    sto: u16,
    hold: u16,
    rt2: u16,
    rt1p: u16,
    rt1s: u16,
    preamble: usize,
    polling: u8,
    unique: u64,
    limit: usize,
    state: &mut [u64; 41],
) -> u32
    ensures { DeviceStarts (profile sto hold rt2 rt1p rt1s) preamble polling unique limit state result }
{
    let p = profile_of(sto, hold, rt2, rt1p, rt1s);
    start_number(begin_device(p, preamble, polling, unique, limit, state))
}
