// The player's output: a monitor for each party that listens to what it sends, and the lines of the frames that it hears, put as text into a lent buffer.
#![tactic(auto, using(base::proofs::Choices::choices))]

ghost use Rattle.std.specs.Prelude.{◌≡◌, [], ◌∷◌, length, replicate, ◌<◌, ◌+◌};
ghost use Rattle.texts.specs.Put.{PutIs};
ghost use Rattle.player_listing.specs.Lines.{line_of, quiet_monitor, frame_ends, ends_with, one_more, listens};
ghost use Rattle.player_listing.specs.Text.{decimal, head_line, type_name, master_digit, word, line_text};
ghost use Rattle.player_listing.specs.Promises.{PartyIs};
ghost use Rattle.player_listing.specs.Rows.{rows_listed, heard_so_far, RowIs, RowsAre};

use frame::Header;
use line::{Event, Receiver, Taken};
use texts::{put_byte, put_bytes, put_digits};
use turns::Sent;

// What was heard of one party's characters.
#[derive(Clone, Copy)]
pub struct Monitor {
    pub receiver: Receiver,
    // how many characters of the frame there were
    pub count: u16,
    // nobody else sent in their ticks
    pub alone: bool,
}

// A monitor for each party: 0 primary, 1 secondary, then the devices.
pub type Monitors = [Monitor; 8];

// The monitors after some ticks, and the place after their lines in the output.
#[derive(Clone, Copy)]
pub struct Listened {
    pub monitors: Monitors,
    pub at: usize,
}

// The same for one party and one tick.
#[derive(Clone, Copy)]
struct MonitorHeard {
    monitor: Monitor,
    at: usize,
}

// A number in decimal.
fn put_decimal(n: u32, out: &mut [u8], at: usize) -> usize
    ensures { PutIs (decimal n) out.old at result out.new }
{
    put_digits(10, n as u64, out, at)
}

// The header line.
pub fn put_head(out: &mut [u8], at: usize) -> usize
    ensures { PutIs head_line out.old at result out.new }
{
    put_bytes(b"tick party type master length\n", out, at)
}

// The name of a frame type.
#[tactic(auto, using(base::proofs::Choices::choices, texts::proofs::Puts::put_same))]
fn put_type(frame: u8, out: &mut [u8], at: usize) -> usize
    ensures { PutIs (type_name frame) out.old at result out.new }
{
    if frame == frame::STX {
        put_bytes(b"STX", out, at)
    } else if frame == frame::ACK {
        put_bytes(b"ACK", out, at)
    } else {
        put_bytes(b"BACK", out, at)
    }
}

// A frame's master: 0 is the primary.
fn master_digit(primary: bool) -> u8
    ensures { result ≡ master_digit primary }
{
    if primary { b'0' } else { b'1' }
}

// The words of a line, each with a space after it.
#[tactic(auto, using(base::proofs::Choices::choices, texts::proofs::Puts::put_then))]
fn put_number_word(n: u32, out: &mut [u8], at: usize) -> usize
    ensures { PutIs (word (decimal n)) out.old at result out.new }
{
    let at = put_decimal(n, out, at);
    put_byte(b' ', out, at)
}

#[tactic(auto, using(base::proofs::Choices::choices, texts::proofs::Puts::put_then))]
pub fn put_type_word(frame: u8, out: &mut [u8], at: usize) -> usize
    ensures { PutIs (word (type_name frame)) out.old at result out.new }
{
    let at = put_type(frame, out, at);
    put_byte(b' ', out, at)
}

#[tactic(auto, using(base::proofs::Choices::choices, crate::proofs::Words::put_word))]
pub fn put_master_word(primary: bool, out: &mut [u8], at: usize) -> usize
    ensures { PutIs (word (master_digit primary ∷ [])) out.old at result out.new }
{
    let at = put_byte(master_digit(primary), out, at);
    put_byte(b' ', out, at)
}

// The line of a frame: the tick of its last character, its sender, its type, its master, and its length in characters.
#[tactic(auto, using(base::proofs::Choices::choices, crate::proofs::Words::put_line))]
fn put_line(tick: u32, party: u16, header: Header, length: u16, out: &mut [u8], at: usize) -> usize
    ensures { PutIs (line_text (line_of tick party header length)) out.old at result out.new }
{
    let at = put_number_word(tick, out, at);
    let at = put_number_word(party as u32, out, at);
    let at = put_type_word(header.kind, out, at);
    let at = put_master_word(header.primary, out, at);
    let at = put_decimal(length as u32, out, at);
    put_byte(b'\n', out, at)
}

// A monitor that has heard nothing of a frame.
#[tactic(auto, using(base::proofs::Choices::choices, crate::proofs::Listens::quiet))]
fn quiet_monitor() -> Monitor
    ensures { result ≡ quiet_monitor }
{
    Monitor {
        receiver: line_reader::idle_reader(),
        count: 0,
        alone: true,
    }
}

// The monitors before the first tick.
#[tactic(auto, using(base::proofs::Choices::choices, crate::proofs::Listens::quiet))]
pub fn quiet_monitors() -> Monitors
    ensures { result ≡ replicate 8 quiet_monitor }
{
    [quiet_monitor(); 8]
}

// One more character, up to the largest count.
fn one_more(n: u16) -> u16
    ensures { result ≡ one_more n }
{
    n.saturating_add(1)
}

// A frame that its sender sent to the end.
#[tactic(auto, using(base::proofs::Choices::choices, crate::proofs::Listens::ends))]
fn frame_ends(
    tick: u32,
    party: u16,
    header: Header,
    length: u16,
    alone: bool,
    out: &mut [u8],
    at: usize,
) -> MonitorHeard
    ensures { PartyIs (frame_ends (line_of tick party header length) alone) out.old at result.monitor result.at out.new }
{
    let at = if alone {
        put_line(tick, party, header, length, out, at)
    } else {
        at
    };
    MonitorHeard {
        monitor: quiet_monitor(),
        at,
    }
}

// A monitor after a character, by what its reader tells.
#[tactic(auto, using(base::proofs::Choices::choices, crate::proofs::Listens::tells))]
fn ends_with(
    tick: u32,
    party: u16,
    count: u16,
    alone: bool,
    t: Taken,
    out: &mut [u8],
    at: usize,
) -> MonitorHeard
    ensures { PartyIs (ends_with tick party count alone t) out.old at result.monitor result.at out.new }
{
    match t.event {
        Event::Frame(w) => frame_ends(tick, party, w.header, count, alone, out, at),
        _ => MonitorHeard {
            monitor: Monitor {
                receiver: t.receiver,
                count,
                alone,
            },
            at,
        },
    }
}

// A party sends a character. The tick and the party go one by one, as the definition `listens` takes them.
#[tactic(auto, using(base::proofs::Choices::choices, crate::proofs::Listens::listening))]
fn hear(
    tick: u32,
    party: u16,
    lone: bool,
    monitor: Monitor,
    c: u8,
    out: &mut [u8],
    at: usize,
) -> MonitorHeard
    ensures { PartyIs (listens tick party lone monitor (Sent.Character c)) out.old at result.monitor result.at out.new }
{
    let t = line_reader::heard_character(monitor.receiver, c);
    let count = one_more(monitor.count);
    ends_with(tick, party, count, monitor.alone && lone, t, out, at)
}

// How many of 64 rows are listed from this tick on.
#[tactic(auto, using(base::proofs::Choices::choices, crate::proofs::Rows::listed_of))]
fn rows_listed(tick: u32, count: u16) -> u32
    ensures { result ≡ rows_listed tick count }
{
    (count as u32).min(64).min(4294967295 - tick)
}

// Whether at most one party sends in a tick.
#[tactic(auto, using(base::proofs::Choices::choices, crate::proofs::Rows::counted))]
fn row_is_lone(row: &[u16; 8]) -> bool
    ensures { RowIs row.now result }
{
    let mut n: usize = 0;
    for c in row {
        if 256 <= *c {
            n += 1;
        }
    }
    n <= 1
}

// What a monitor has heard of a frame.
#[tactic(auto, using(base::proofs::Choices::choices, crate::proofs::Rows::so_far))]
fn heard_so_far(m: Monitor) -> Monitor
    ensures { result ≡ heard_so_far m }
{
    if m.count == 0 { quiet_monitor() } else { m }
}

// So many ticks from this one on: the monitors after them, and the lines of the frames that ended in them, put into the output.
// Row k of sent is what each party sent k ticks after the first: the character with 256 added, or 0 for none.
pub fn list_ticks(
    monitors: Monitors,
    tick: u32,
    count: u16,
    sent: &[[u16; 8]; 64],
    out: &mut [u8],
    at: usize,
) -> Listened
    ensures { RowsAre monitors tick count sent.now out at result }
{
    let mut list = monitors;
    let mut place = at;
    for k in 0..rows_listed(tick, count) {
        let row = &sent[k as usize];
        let lone = row_is_lone(row);
        for (i, c) in row.iter().enumerate() {
            if 256 <= *c {
                let begun = heard_so_far(list[i]);
                let heard = hear(
                    tick + k,
                    i as u16,
                    lone,
                    begun,
                    (*c % 256) as u8,
                    out,
                    place,
                );
                list[i] = heard.monitor;
                place = heard.at;
            } else if 0 < list[i].count {
                list[i] = quiet_monitor();
            }
        }
    }
    Listened {
        monitors: list,
        at: place,
    }
}
