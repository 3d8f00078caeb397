// The start of a link.
#![tactic(auto, using(base::proofs::Choices::choices))]

ghost use Rattle.std.specs.Prelude.{◌≡◌};
ghost use Rattle.base.specs.Refusal.{number, refused, called_as};
ghost use Rattle.link_parties.specs.Stands.{any_master};
ghost use Rattle.link_start.specs.Start.{no_profile, absent, empty_link, lower, both, pair, slot_starts, devices_start, masters_start, link_starts, lowest, StartedIs, GivenIs, limit_taken, limited_starts, LimitedIs};

use base::Refusal;
use line::{Heard, Profile};
use link_parties::Link;
use turns::{Device, Master};

// What a device is started with.
#[derive(Clone, Copy)]
pub struct Setting {
    pub preamble: usize,
    pub polling: u8,
    pub unique: u64,
}

// What became of a link's start, and the link. Where it was refused, that is a link without a device: StartedIs promises it, so this is no Result.
#[derive(Clone, Copy)]
pub struct LinkStarted {
    pub answer: Result<(), Refusal>,
    pub link: Link,
}

// ---- where no party was started

fn no_profile() -> Profile
    ensures { result ≡ no_profile }
{
    Profile {
        sto: 0,
        hold: 0,
        rt2: 0,
        rt1p: 0,
        rt1s: 0,
    }
}

fn any_master() -> Master
    ensures { result ≡ any_master }
{
    master::fresh_master(no_profile(), true, 0)
}

fn empty_link() -> Link
    ensures { result ≡ empty_link }
{
    Link {
        masters: [any_master(); 2],
        devices: [None; 6],
        line: Heard::Silence,
    }
}

// ---- the lowest refusal

// The refusal with the lower number.
fn lower_of(v: Refusal, w: Refusal) -> Refusal
    ensures { number result ≡ lower (number v) (number w) }
{
    if v.number() <= w.number() { v } else { w }
}

// The lowest refusal, with one more.
fn lowest_with(v: Refusal, y: Result<(), Refusal>) -> Result<(), Refusal>
    ensures { called_as result ≡ lowest (refused (number v)) (called_as y) }
{
    match y {
        Ok(()) => Err(v),
        Err(w) => Err(lower_of(v, w)),
    }
}

// Both, or the lower of their refusals.
fn both<A: Copy, B: Copy>(x: Result<A, Refusal>, y: Result<B, Refusal>) -> Result<(A, B), Refusal>
    ensures { called_as result ≡ both pair (called_as x) (called_as y) }
{
    match (x, y) {
        (Ok(a), Ok(b)) => Ok((a, b)),
        (Err(v), Err(w)) => Err(lower_of(v, w)),
        (Err(why), Ok(_)) | (Ok(_), Err(why)) => Err(why),
    }
}

// ---- the parties' starts

fn masters_start(profile: Profile, retries: u8) -> Result<[Master; 2], Refusal>
    ensures { called_as result ≡ masters_start profile retries }
{
    let primary = master::start(profile, true, retries);
    let secondary = master::start(profile, false, retries);
    let (p, s) = both(primary, secondary)?;
    Ok([p, s])
}

fn slot_starts(profile: Profile, s: Option<Setting>) -> Result<Option<Device>, Refusal>
    ensures { called_as result ≡ slot_starts profile s }
{
    let Some(s) = s else {
        return Ok(None);
    };
    let device = device::start(profile, s.preamble, s.polling, s.unique)?;
    Ok(Some(device))
}

// The devices, from the last to the first, or the lowest refusal of those that were started.
fn devices_start(
    profile: Profile,
    settings: [Option<Setting>; 6],
) -> Result<[Option<Device>; 6], Refusal>
    ensures { called_as result ≡ devices_start profile settings }
{
    let mut slots = [None; 6];
    let mut answer = Ok(());
    for i in (0..6).rev() {
        match slot_starts(profile, settings[i]) {
            Ok(slot) => slots[i] = slot,
            Err(why) => answer = lowest_with(why, answer),
        }
    }
    answer?;
    Ok(slots)
}

fn link_starts(
    profile: Profile,
    retries: u8,
    settings: [Option<Setting>; 6],
) -> Result<Link, Refusal>
    ensures { called_as result ≡ link_starts profile retries settings }
{
    let masters = masters_start(profile, retries);
    let devices = devices_start(profile, settings);
    let (masters, devices) = both(masters, devices)?;
    Ok(Link {
        masters,
        devices,
        line: Heard::Silence,
    })
}

// What is given for a start.
fn given(x: Result<Link, Refusal>) -> LinkStarted
    ensures { GivenIs (called_as x) result }
{
    match x {
        Ok(link) => LinkStarted {
            answer: Ok(()),
            link,
        },
        Err(why) => LinkStarted {
            answer: Err(why),
            link: empty_link(),
        },
    }
}

// The fresh link of these parties, or the lowest of their starts' refusals: 2, 3 or 4.
pub fn start(profile: Profile, retries: u8, settings: [Option<Setting>; 6]) -> LinkStarted
    ensures { StartedIs profile retries settings result }
{
    given(link_starts(profile, retries, settings))
}

fn limit_taken(limit: usize) -> Result<(), Refusal>
    ensures { called_as result ≡ limit_taken limit }
{
    if base::outside(limit, 2, 255) {
        Err(Refusal::DataLength)
    } else {
        Ok(())
    }
}

#[tactic(auto, using(base::proofs::Choices::choices), unfolding(crate::specs::Start::limited_starts))]
fn limited_starts(
    limit: usize,
    profile: Profile,
    retries: u8,
    settings: [Option<Setting>; 6],
) -> Result<Link, Refusal>
    ensures { called_as result ≡ limited_starts limit profile retries settings }
{
    let ((), link) = both(limit_taken(limit), link_starts(profile, retries, settings))?;
    Ok(link)
}

// The same with a data limit: the lowest refusal is 2, 3, 4, or 9 for a limit outside 2 to 255. The link does not hold the limit: whoever starts it gives the same number to every `link_ticks::ticks` of it, as the runs of link_run do.
pub fn start_limited(
    limit: usize,
    profile: Profile,
    retries: u8,
    settings: [Option<Setting>; 6],
) -> LinkStarted
    ensures { LimitedIs limit profile retries settings result }
{
    given(limited_starts(limit, profile, retries, settings))
}
