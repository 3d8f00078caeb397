// What a master does on what it hears in a tick.
ghost use Rattle.std.specs.Prelude.{◌≡◌};
ghost use Rattle.line.specs.Reader.{idle, gapped, taken};
ghost use Rattle.line.specs.declared.Heard.TheVariants.{Silence};
ghost use Rattle.turns.specs.Master.{tells, after_frame, after_break, frame_goes_on, on_character, waited, rt1_ends, unless_ended, counts, counts_twice, with_reader, on_silence};
ghost use Rattle.master.specs.Takes.{counted_message, counted_timer, timer_ticked, MasterTakeIs};

use line::{Event, Heard, Receiver, Whole};
use turns::{Ending, Master, MasterTaken, MasterTold, Stage, Timer};

// After a whole frame: BURST, then the timer, and the message.
fn after_frame(m: Master, r: Receiver, w: Whole, bytes: &[u8; 255]) -> MasterTaken
    ensures { result ≡ after_frame m r w bytes.now }
{
    let burst = master_rules::burst_after(m.burst, m.noted, w.header);
    let ending = master_rules::if_awaiting(
        m.message.stage,
        m.message,
        master_rules::at_frame(m, w, bytes),
    );
    MasterTaken {
        master: master_rules::with_parts(
            m,
            r,
            burst,
            master_rules::noted_after(m.noted, w.header),
            master_rules::timer_after(m, burst, w.header),
            ending.message,
        ),
        told: ending.told,
        event: Event::Frame(w),
    }
}

// After a broken or damaged frame, or a character that is passed over.
pub fn after_break(m: Master, r: Receiver, event: Event) -> MasterTaken
    ensures { result ≡ after_break m r event }
{
    let ending = master_rules::if_awaiting(m.message.stage, m.message, master_rules::at_break(m));
    MasterTaken {
        master: master_rules::with_parts(
            m,
            r,
            m.burst,
            m.noted,
            master_rules::broken_timer(m),
            ending.message,
        ),
        told: ending.told,
        event,
    }
}

// Inside a frame.
fn inside_frame(m: Master, r: Receiver) -> MasterTaken
    ensures { result ≡ frame_goes_on m r }
{
    let stopped = master_rules::timer_of(0);
    tells_nothing(master_rules::with_parts(m, r, m.burst, m.noted, stopped, m.message))
}

// After a character, by what the reader tells.
fn on_character(m: Master, r: Receiver, event: Event, bytes: &[u8; 255]) -> MasterTaken
    ensures { result ≡ on_character m r event bytes.now }
{
    match event {
        Event::Nothing => inside_frame(m, r),
        Event::Frame(w) => after_frame(m, r, w, bytes),
        _ => after_break(m, r, event),
    }
}

fn waited_at(stage: Stage) -> Stage
    ensures { result ≡ waited stage }
{
    match stage {
        Stage::Awaiting(n) => Stage::Awaiting(n.saturating_sub(1)),
        _ => stage,
    }
}

// Whether RT1 ends without a character.
fn rt1_ends(stage: Stage) -> bool
    ensures { result ≡ rt1_ends stage }
{
    matches!(stage, Stage::Awaiting(n) if n <= 1)
}

// The window of a master whose message ended on RT1's end is left unused.
fn unless_ended(stage: Stage, t: Timer) -> Timer
    ensures { result ≡ unless_ended stage t }
{
    match stage {
        Stage::Free => Timer { window: 0, ..t },
        _ => t,
    }
}

// The message after a silent tick, and what is told: RT1's end fails its attempt.
fn counted_message(m: Master, told: MasterTold) -> Ending
    ensures { result ≡ counted_message m told }
{
    if rt1_ends(m.message.stage) {
        master_rules::at_break(m)
    } else {
        Ending {
            message: master_rules::at_stage(m.message, waited_at(m.message.stage)),
            told,
        }
    }
}

// The timer after a silent tick that leaves the message at this stage.
fn counted_timer(m: Master, left: Stage) -> Timer
    ensures { result ≡ counted_timer m left }
{
    let timer = master_rules::timer_counted(m);
    if rt1_ends(m.message.stage) {
        unless_ended(left, timer)
    } else {
        timer
    }
}

// A silent tick.
fn count(m: Master, told: MasterTold, event: Event) -> MasterTaken
    ensures { result ≡ counts m told event }
{
    let ending = counted_message(m, told);
    MasterTaken {
        master: master_rules::with_parts(
            m,
            m.receiver,
            master_rules::burst_counted(m),
            m.noted,
            counted_timer(m, ending.message.stage),
            ending.message,
        ),
        told: ending.told,
        event,
    }
}

// The same master with another reader.
fn with_reader(m: Master, r: Receiver) -> Master
    ensures { result ≡ with_reader m r }
{
    Master { receiver: r, ..m }
}

// A silent tick outside a frame is counted.
fn silent_outside(m: Master) -> MasterTaken
    ensures { result ≡ counts (with_reader m idle) MasterTold.Nothing Event.Nothing }
{
    count(
        with_reader(m, line_reader::idle_reader()),
        MasterTold::Nothing,
        Event::Nothing,
    )
}

// A silent tick inside a frame that is passed over.
fn passed_over(m: Master) -> MasterTaken
    ensures { result ≡ tells (with_reader m (gapped m.receiver)) MasterTold.Nothing Event.Nothing }
{
    tells_nothing(with_reader(m, line_reader::gapped_reader(m.receiver)))
}

// Only the timer is counted: after a break no ACK is awaited.
fn timer_ticked(m: Master) -> Master
    ensures { result ≡ timer_ticked m }
{
    master_rules::with_parts(
        m,
        m.receiver,
        master_rules::burst_counted(m),
        m.noted,
        master_rules::timer_counted(m),
        m.message,
    )
}

// The second silent tick in a row breaks the frame, and both count.
fn second_silent(m: Master) -> MasterTaken
    ensures { result ≡ counts_twice (after_break m idle Event.Broken).master (after_break m idle Event.Broken).told Event.Broken }
{
    let broken = after_break(m, line_reader::idle_reader(), Event::Broken);
    MasterTaken {
        master: timer_ticked(timer_ticked(broken.master)),
        told: broken.told,
        event: Event::Broken,
    }
}

// A master whose host is told nothing.
fn tells_nothing(m: Master) -> MasterTaken
    ensures { result ≡ tells m MasterTold.Nothing Event.Nothing }
{
    MasterTaken {
        master: m,
        told: MasterTold::Nothing,
        event: Event::Nothing,
    }
}

// Hears silence.
#[tactic(auto, using(crate::proofs::Takes::silences))]
fn hears_silence(m: Master) -> MasterTaken
    ensures { result ≡ on_silence m (taken m.receiver Silence).receiver }
{
    if !line_reader::is_inside(m.receiver.place) {
        silent_outside(m)
    } else if m.receiver.gap {
        second_silent(m)
    } else {
        passed_over(m)
    }
}

// Takes what was heard. The data of the frame being heard are kept in the lent bytes.
pub fn take(m: Master, heard: Heard, bytes: &mut [u8; 255]) -> MasterTaken
    ensures { MasterTakeIs m heard bytes.old result bytes.new }
{
    if m.deaf {
        tells_nothing(m)
    } else if party::is_silence(heard) {
        hears_silence(m)
    } else {
        let taken = line_reader::take(m.receiver, heard, bytes);
        on_character(m, taken.receiver, taken.event, bytes)
    }
}
