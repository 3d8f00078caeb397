// A run of the link over a lent list of ticks, in which each master starts at a tick of its own: item 14 is promised of it, and where both start in tick 0 demand 3, the credited answer and the BACKs.
#![tactic(auto, using(base::proofs::Choices::choices))]

ghost use Rattle.std.specs.Prelude.{◌≡◌, ◌+◌, ◌-◌, ◌*◌, ◌≤◌, length};
ghost use Rattle.base.specs.Events.{RunIs};
ghost use Rattle.link_start.specs.Fresh.{rows_fresh};
ghost use Rattle.link_run.specs.Run.{RunKeeps};
ghost use Rattle.link_run.specs.Late.{LateKeeps};
ghost use Rattle.link_run.specs.Step.{count_in, senders_in, taken_in, row_number, call_taken, requests_taken, calls_taken, ticked_master, ticked_masters, ticked_link, starts_left, LateReady, LateStepIs, late_numbers, LateRunIs};

use base::Refusal;
use line::Profile;
use link_parties::{Calls, Link, MasterCallWithPart, MasterDid};
use link_start::Setting;
use link_ticks::Most;
use turns::{CallResult, Master};

// 1 for a party that sends: its number is the character with 256 added, or 0 for none.
fn count_of(code: u16) -> u8
    ensures { (result ≡ count_in code) × (result ≤ 1) }
{
    if code < 256 { 0 } else { 1 }
}

// 1 for a request that was taken.
fn taken_of(res: CallResult) -> u8
    ensures { (result ≡ taken_in res) × (result ≤ 1) }
{
    match res {
        CallResult::Taken => 1,
        CallResult::Nothing | CallResult::Refused(_) => 0,
    }
}

// There are eight numbers in a row: what the array's type says, in words that the promise below needs.
fn eight_numbers(row: &[u16])
    requires { length row.now ≡ 8 }
    ensures { length row.now ≡ 8 }
{}

// How many send.
fn senders_of(row: &[u16; 8]) -> u8
    ensures { (result ≡ senders_in row.now) × (result ≤ 8) }
{
    eight_numbers(row);
    let mut senders = 0;
    for code in row {
        senders += count_of(*code);
    }
    senders
}

// What a master adds to a tick's number, in units of 16: its request was taken, and it sends.
fn master_number(did: MasterDid, code: u16) -> u8
    ensures { (result ≡ taken_in did.result + 4 * count_in code) × (result ≤ 5) }
{
    taken_of(did.result) + 4 * count_of(code)
}

// The number of a tick in which each party sent this and the masters' hosts were answered so.
fn tick_number(row: &[u16; 8], masters: [MasterDid; 2]) -> u8
    ensures { result ≡ row_number row.now masters }
{
    let senders = senders_of(row);
    let a = master_number(masters[0], row[0]);
    let b = master_number(masters[1], row[1]);
    senders + 16 * a + 32 * b
}

// In how many ticks each master starts: 0 for one that has started.
#[derive(Clone, Copy)]
pub struct StartTicks {
    pub primary: u64,
    pub secondary: u64,
}

// The same a tick later.
fn starts_behind(s: StartTicks) -> StartTicks
    ensures { result ≡ starts_left s }
{
    StartTicks {
        primary: s.primary.saturating_sub(1),
        secondary: s.secondary.saturating_sub(1),
    }
}

// The call that is taken of a master's host: none before the master has started.
fn call_taken(start: u64, c: MasterCallWithPart) -> MasterCallWithPart
    ensures { result ≡ call_taken start c }
{
    if start == 0 {
        c
    } else {
        MasterCallWithPart { call: None, ..c }
    }
}

fn requests_taken(s: StartTicks, requests: [MasterCallWithPart; 2]) -> [MasterCallWithPart; 2]
    ensures { result ≡ requests_taken s requests }
{
    [
        call_taken(s.primary, requests[0]),
        call_taken(s.secondary, requests[1]),
    ]
}

fn calls_taken(s: StartTicks, calls: Calls) -> Calls
    ensures { result ≡ calls_taken s calls }
{
    Calls {
        masters: requests_taken(s, calls.masters),
        ..calls
    }
}

// A master after a tick: the same as before it while it has not started.
fn master_behind(start: u64, before: Master, ticked: Master) -> Master
    ensures { result ≡ ticked_master start before ticked }
{
    if start == 0 { ticked } else { before }
}

fn masters_behind(s: StartTicks, before: [Master; 2], ticked: [Master; 2]) -> [Master; 2]
    ensures { result ≡ ticked_masters s before ticked }
{
    [
        master_behind(s.primary, before[0], ticked[0]),
        master_behind(s.secondary, before[1], ticked[1]),
    ]
}

// The link after a tick.
fn link_behind(s: StartTicks, l: Link, t: Link) -> Link
    ensures { result ≡ ticked_link s l t }
{
    Link {
        masters: masters_behind(s, l.masters, t.masters),
        ..t
    }
}

// A link after a tick of a list, the tick's number, and the place after it.
#[derive(Clone, Copy)]
struct Stepped {
    link: Link,
    number: u8,
    next: usize,
}

// A link with a data limit whose masters have so many ticks to wait for their start.
#[derive(Clone, Copy)]
struct Late {
    limit: u8,
    link: Link,
    starts: StartTicks,
}

// The tick that stands at this place of the list. All parties are ticked: a master that has not started has no call, sends nothing and is put back as it was.
fn step_at(
    x: Late,
    ticks: &[u8],
    at: usize,
    frames: &mut [[u8; 284]; 8],
    bytes: &mut [[u8; 255]; 8],
    contents: &mut [[u8; 255]; 6],
    sent: &mut [[u16; 8]; 64],
) -> Stepped
    ensures { LateStepIs x.limit x.link x.starts ticks.now at frames bytes contents result }
{
    let read = link_list::read(ticks, at);
    let calls = calls_taken(x.starts, read.calls);
    let most = Most {
        ticks: 1,
        data: x.limit,
    };
    let t = link_ticks::ticks(most, x.link, calls, ticks, frames, bytes, contents, sent);
    Stepped {
        link: link_behind(x.starts, x.link, t.link),
        number: tick_number(&sent[0], t.masters),
        next: read.next,
    }
}

// A run from a link on.
fn run_from(
    limit: u8,
    start: Link,
    starts: StartTicks,
    ticks: &[u8],
    events: &mut [u8],
    frames: &mut [[u8; 284]; 8],
    bytes: &mut [[u8; 255]; 8],
    contents: &mut [[u8; 255]; 6],
) -> usize
    requires { LateReady starts start }
    ensures { LateRunIs limit start starts ticks.now events frames bytes contents result }
{
    let mut sent = [[0u16; 8]; 64];
    let mut l = start;
    let mut s = starts;
    let mut at = 0;
    let mut i = 0;
    // the count of events is the answer too: with `for` the proof of the last return did not close
    while i < events.len() {
        if ticks.len() <= at {
            return i;
        }
        let place = i;
        i += 1;
        let x = Late {
            limit,
            link: l,
            starts: s,
        };
        let t = step_at(x, ticks, at, frames, bytes, contents, &mut sent);
        events[place] = t.number;
        at = t.next;
        l = t.link;
        s = starts_behind(s);
    }
    i
}

// A run of a link that was started, with rows of its own.
fn run_started(limit: u8, start: Link, starts: StartTicks, ticks: &[u8], events: &mut [u8]) -> usize
    requires { LateReady starts start }
    ensures { RunIs (late_numbers limit start starts rows_fresh ticks.now) events.old result events.new }
{
    let mut frames = [[0u8; 284]; 8];
    let mut bytes = [[0u8; 255]; 8];
    let mut contents = [[0u8; 255]; 6];
    run_from(
        limit,
        start,
        starts,
        ticks,
        events,
        &mut frames,
        &mut bytes,
        &mut contents,
    )
}

// Starts a link with a data limit, whose devices start in tick 0 and whose masters in the ticks that are named, and runs it over a lent list of ticks. Each tick's number goes to the front of the lent events, for as many ticks as both hold. What is promised is the run that the definitions give, and item 14 of it.
pub fn late_run(
    limit: usize,
    profile: Profile,
    retries: u8,
    settings: [Option<Setting>; 6],
    starts: StartTicks,
    ticks: &[u8],
    events: &mut [u8],
) -> Result<usize, Refusal>
    ensures { LateKeeps limit profile retries settings starts.primary starts.secondary ticks.now events.old result events.new }
{
    let started = link_start::start_limited(limit, profile, retries, settings);
    // with `?` the laws of a kept run, which cite the two cases, did not close
    let answer = started.answer;
    let link = started.link;
    match answer {
        Ok(()) => Ok(run_started(limit as u8, link, starts, ticks, events)),
        Err(why) => Err(why),
    }
}

// The same with both starts in tick 0. What is promised is the run that the definitions give, demand 3, the credited answer and the BACKs of it, and at most one sender in each number.
pub fn run(
    limit: usize,
    profile: Profile,
    retries: u8,
    settings: [Option<Setting>; 6],
    ticks: &[u8],
    events: &mut [u8],
) -> Result<usize, Refusal>
    ensures { RunKeeps limit profile retries settings ticks.now events.old result events.new }
{
    let starts = StartTicks {
        primary: 0,
        secondary: 0,
    };
    late_run(limit, profile, retries, settings, starts, ticks, events)
}
