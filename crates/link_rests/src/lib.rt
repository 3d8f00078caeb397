// A link that rests: the line is silent, and every party only counts. Until a host calls, nothing but timers changes. What it is after any number of ticks is worked out party by party.
#![tactic(auto, using(base::proofs::Choices::choices))]

ghost use Rattle.std.specs.Prelude.{◌≡◌, map, ◌-◌, ◌<◌};
ghost use Rattle.link_rests.specs.Rests.{only_counts, device_rests, master_rests, slot_rests, slots_rest, masters_rest, link_rests};
ghost use Rattle.link_rests.specs.Rests.{device_rested, timer_rested, master_rested, slot_rested, masters_rested, link_rested};

use line::{Heard, Profile};
use link_parties::{Link, Way};
use turns::{Device, Master, Timer, Turn};

// Whether a tick of this way only counts.
fn only_counts(way: Way) -> bool
    ensures { result ≡ only_counts way }
{
    matches!(way, Way::Counts)
}

fn device_rests(d: Device) -> bool
    ensures { result ≡ device_rests d }
{
    let none = link_parties::no_device_call();
    only_counts(link_parties::device_way(d, Heard::Silence, none, false, false, d.receiver))
}

fn master_rests(m: Master) -> bool
    ensures { result ≡ master_rests m }
{
    let none = link_parties::no_master_call();
    only_counts(link_parties::master_way(m, Heard::Silence, none, false, false, m.receiver))
}

fn slot_rests(s: Option<Device>) -> bool
    ensures { result ≡ slot_rests s }
{
    s.is_none_or(device_rests)
}

fn slots_rest(slots: [Option<Device>; 6]) -> bool
    ensures { result ≡ slots_rest slots }
{
    for s in slots {
        if !slot_rests(s) {
            return false;
        }
    }
    true
}

fn masters_rest(masters: [Master; 2]) -> bool
    ensures { result ≡ masters_rest masters }
{
    base::both(master_rests(masters[0]), master_rests(masters[1]))
}

// Whether a link rests: until a host calls, nothing but timers changes.
pub fn link_rests(l: Link) -> bool
    ensures { result ≡ link_rests l }
{
    party::is_silence(l.line) && masters_rest(l.masters) && slots_rest(l.devices)
}

fn device_rested(d: Device, ticks: u32) -> Device
    ensures { result ≡ device_rested ticks d }
{
    Device {
        receiver: line_reader::idle_reader(),
        turn: Turn::Listens,
        due: d.due.saturating_sub(ticks),
        ..d
    }
}

// A timer after some silent ticks with BURST clear, and how many are left: the tick that opens a window, or those before it, or all.
fn timer_rests(p: Profile, t: Timer, ticks: u32) -> (Timer, u32)
    requires { 0 < ticks }
    ensures { (result.1 < ticks) × (result.0 ≡ timer_rested (ticks - result.1) p t) }
{
    if t.next == 1 {
        return (master_rules::count_clear(p, t), ticks - 1);
    }
    let most = if t.next == 0 { ticks } else { t.next - 1 };
    let counted = ticks.min(most);
    let timer = Timer {
        next: t.next.saturating_sub(counted),
        window: t.window.saturating_sub(counted),
        quiet: 0,
    };
    (timer, ticks - counted)
}

// A timer after so many silent ticks with BURST clear.
fn timer_rested(p: Profile, start: Timer, ticks: u32) -> Timer
    ensures { result ≡ timer_rested ticks p start }
{
    let mut t = start;
    let mut left = ticks;
    // Up to a window at once. Tick by tick, the speed of a silent link hung on where the compiler keeps the two counts.
    while 0 < left {
        (t, left) = timer_rests(p, t, left);
    }
    t
}

fn master_rested(m: Master, ticks: u32) -> Master
    ensures { result ≡ master_rested ticks m }
{
    master_rules::with_parts(
        m,
        line_reader::idle_reader(),
        m.burst,
        m.noted,
        timer_rested(m.profile, m.timer, ticks),
        m.message,
    )
}

fn slot_rested(s: Option<Device>, ticks: u32) -> Option<Device>
    ensures { result ≡ slot_rested ticks s }
{
    s.map(|d| device_rested(d, ticks))
}

fn slots_rested(slots: [Option<Device>; 6], ticks: u32) -> [Option<Device>; 6]
    ensures { result ≡ map (slot_rested ticks) slots }
{
    let mut all = slots;
    for s in &mut all {
        *s = slot_rested(*s, ticks);
    }
    all
}

fn masters_rested(masters: [Master; 2], ticks: u32) -> [Master; 2]
    ensures { result ≡ masters_rested ticks masters }
{
    [
        master_rested(masters[0], ticks),
        master_rested(masters[1], ticks),
    ]
}

// A link that rests, after so many ticks.
pub fn link_rested(l: Link, ticks: u32) -> Link
    ensures { result ≡ link_rested ticks l }
{
    Link {
        masters: masters_rested(l.masters, ticks),
        devices: slots_rested(l.devices, ticks),
        line: Heard::Silence,
    }
}
