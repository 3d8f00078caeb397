// A recording read by jumps, from each start of a frame to its end: document 02, item 9.
#![tactic(auto, using(base::proofs::Choices::choices))]

ghost use Rattle.std.specs.Prelude.{◌≡◌, true, false, ◌++◌, ◌+◌, ◌-◌, ◌*◌, ◌/◌, ◌%◌, ◌≤◌, ◌<◌, length};
ghost use Rattle.std.specs.Int.Bits.{bit_xor};
ghost use Rattle.base.specs.Choice.{when◌then◌else◌, ◌=?◌, ◌≤?◌};
ghost use Rattle.base.specs.Store.{stored};
ghost use Rattle.line.specs.Reader.{idle, passing, begins, blank};
ghost use Rattle.recording.specs.Form.{bad_recording};
ghost use Rattle.recording.specs.Recording.{TickIs};
ghost use Rattle.recording_list.specs.Listing.{entry, listing_of, ListIs};
ghost use Rattle.recording_list.specs.Reading.{found_from, NextIs, harmed_by, StillSound, PlainIs, RunIs, verdict_of, TailIs, CountIs, HeadIs, FrameIs, in_preamble, ItemIs, LeftOut, SoundFrom, SoundTick, HasRoom, EntriesAre, RoomIs};

use base::Refusal;
use line::Place;

// What ends the characters of a frame: the second silent tick in a row, which breaks it, or that the recording is over.
#[derive(Clone, Copy)]
enum Stop {
    Broke(usize),
    Over,
}

// So many characters: the tick after the last, their exclusive-or and whether one was damaged.
#[derive(Clone, Copy)]
struct Run {
    end: usize,
    sum: u8,
    harm: bool,
}

// What became of a frame whose characters did not stop: the tick that ends it with its verdict, or the character that breaks it.
#[derive(Clone, Copy)]
enum Outcome {
    Ends(usize, u8),
    Breaks(usize),
}

// An entry: its tick and verdict, and the tick from which the reader is before a frame again.
#[derive(Clone, Copy)]
struct Item {
    tick: usize,
    verdict: u8,
    next: usize,
}

// A recording with no value in a tick that a recording may not have.
#[derive(Clone, Copy)]
struct Ticks<'a> {
    bytes: &'a [u8],
    ghost good: { bad_recording bytes.now ≡ false },
}

// The character of a tick.
fn character_of(v: u16) -> u8
    ensures { result ≡ v / 256 }
{
    (v / 256) as u8
}

// Whether a character was damaged, after one more tick.
fn harmed(harm: bool, v: u16) -> bool
    ensures { result ≡ harmed_by harm v }
{
    harm || v % 256 != 32
}

// 0 exactly where it was 0 before and the tick is an undamaged character.
#[tactic(auto, using(crate::proofs::Sounds::plains))]
fn other_than_sound(other: u16, v: u16) -> u16
    ensures { StillSound other v result }
{
    other | v % 256 ^ 32
}

// The verdict at a frame's last character: 1 whole, 2 damaged. It is the entry's last byte, so it stays a number.
fn verdict_of(sum: u8, harm: bool) -> u8
    ensures { result ≡ verdict_of sum harm }
{
    if harm || sum != 0 { 2 } else { 1 }
}

// How many characters lie between delimiter and byte count.
fn head_length(long: bool, expansion: u8) -> usize
    ensures { result ≡ (when long then 6 else 2) + expansion }
{
    (if long { 6 } else { 2 }) + usize::from(expansion)
}

// An entry, at the front of a part.
#[tactic(auto, using(crate::proofs::Lists::put_entry_is))]
fn put_entry(part: &mut [u8], tick: usize, verdict: u8)
    requires { 9 ≤ length part.old }
    ensures { part.new ≡ stored part.old 0 (entry tick verdict) }
{
    part[..8].copy_from_slice(&(tick as u64).to_be_bytes());
    part[8] = verdict;
}

// Puts an entry at the place of its number, where the list is put and not only counted.
#[tactic(auto, using(crate::proofs::Lists::put_ifs))]
fn put_if(put: bool, out: &mut [u8], n: usize, tick: usize, verdict: u8)
    requires { HasRoom put (9 * n + 9) out.old }
    ensures { out.new ≡ (when put then stored out.old (9 * n) (entry tick verdict) else out.old) }
{
    if put {
        put_entry(&mut out[9 * n..], tick, verdict);
    }
}

impl Ticks<'_> {
    // The two bytes of a tick as one number, the character the high byte. It is compiled to one load, and a loop over ticks to vectors.
    fn tick_at(&self, t: usize) -> u16
        requires { 2 * t + 2 ≤ length self.now.bytes.now }
        ensures { TickIs self.now.bytes.now t result }
    {
        u16::from(self.bytes[2 * t]) + 256 * u16::from(self.bytes[2 * t + 1])
    }

    // The next character inside a frame. One silent tick is passed over.
    #[tactic(auto, using(crate::proofs::Walks::nexts))]
    fn next_character(&self, t: usize) -> Result<usize, Stop>
        ensures { NextIs self.now.bytes.now t result }
    {
        let ticks = self.bytes.len() / 2;
        if ticks <= t {
            return Err(Stop::Over);
        }
        if self.tick_at(t) != 0 {
            return Ok(t);
        }
        if ticks - t == 1 {
            return Err(Stop::Over);
        }
        if self.tick_at(t + 1) == 0 {
            return Err(Stop::Broke(t + 1));
        }
        Ok(t + 1)
    }

    // So many characters from a tick on, one by one.
    #[tactic(auto, using(crate::proofs::Walks::walks))]
    fn one_by_one(&self, from: usize, need: usize, prior: u8, hurt: bool) -> Result<Run, Stop>
        ensures { RunIs self.now.bytes.now from need prior hurt result }
    {
        let mut t = from;
        let mut sum = prior;
        let mut harm = hurt;
        for _ in 0..need {
            let u = self.next_character(t)?;
            let v = self.tick_at(u);
            sum ^= character_of(v);
            harm = harmed(harm, v);
            t = u + 1;
        }
        Ok(Run { end: t, sum, harm })
    }

    // The exclusive-or of so many ticks, if each is an undamaged character. It goes on to the end, whatever it finds: so the loop is compiled to vectors.
    #[tactic(auto, using(crate::proofs::Sounds::plains))]
    fn plain_run(&self, t: usize, need: usize, prior: u8) -> Option<u8>
        requires { 2 * (t + need) ≤ length self.now.bytes.now }
        ensures { PlainIs self.now.bytes.now t need prior result }
    {
        let mut other = 0;
        let mut sum = 256 * u16::from(prior);
        for i in 0..need {
            let v = self.tick_at(t + i);
            other = other_than_sound(other, v);
            sum ^= v;
        }
        if other == 0 {
            Some(character_of(sum))
        } else {
            None
        }
    }

    // So many characters from a tick on: at once, where no tick among them is silent or damaged.
    #[tactic(auto, using(crate::proofs::Sounds::plain_to))]
    fn characters(&self, t: usize, need: usize, prior: u8, hurt: bool) -> Result<Run, Stop>
        requires { (2 * t ≤ length self.now.bytes.now) }
        ensures { RunIs self.now.bytes.now t need prior hurt result }
    {
        if need <= self.bytes.len() / 2 - t {
            if let Some(sum) = self.plain_run(t, need, prior) {
                return Ok(Run {
                    end: t + need,
                    sum,
                    harm: hurt,
                });
            }
        }
        self.one_by_one(t, need, prior, hurt)
    }

    // The data and the check byte.
    #[tactic(auto, using(crate::proofs::Frames::tails))]
    fn tail_from(&self, t: usize, count: usize, sum: u8, harm: bool) -> Result<Outcome, Stop>
        requires { (2 * t ≤ length self.now.bytes.now) × (count < 256) }
        ensures { TailIs self.now.bytes.now t count sum harm result }
    {
        let run = self.characters(t, count + 1, sum, harm)?;
        Ok(Outcome::Ends(run.end - 1, verdict_of(run.sum, run.harm)))
    }

    // The byte count, at a tick with a character.
    #[tactic(auto, using(crate::proofs::Frames::counts))]
    fn count_at(&self, u: usize, v: u16, frame: u8, sum: u8, harm: bool) -> Result<Outcome, Stop>
        requires { (2 * u + 2 ≤ length self.now.bytes.now) × TickIs self.now.bytes.now u v × (v ≡ 0 → ⊥) }
        ensures { CountIs self.now.bytes.now u frame sum harm result }
    {
        let c = character_of(v);
        let count = usize::from(c);
        if v % 256 != 32 || frame::too_few(frame, count) {
            return Ok(Outcome::Breaks(u));
        }
        self.tail_from(u + 1, count, sum ^ c, harm)
    }

    // The byte count, wherever it is.
    #[tactic(auto, using(crate::proofs::Frames::next_counts, crate::proofs::Walks::next_within))]
    fn count_from(&self, t: usize, frame: u8, sum: u8, harm: bool) -> Result<Outcome, Stop>
        ensures { CountIs self.now.bytes.now t frame sum harm result }
    {
        let u = self.next_character(t)?;
        self.count_at(u, self.tick_at(u), frame, sum, harm)
    }

    // Address, expansion bytes and command, then the byte count.
    #[tactic(auto, using(crate::proofs::Frames::heads))]
    fn head_from(&self, t: usize, need: usize, frame: u8, sum: u8) -> Result<Outcome, Stop>
        requires { (2 * t ≤ length self.now.bytes.now) }
        ensures { HeadIs self.now.bytes.now t frame need sum result }
    {
        let run = self.characters(t, need, sum, false)?;
        self.count_from(run.end, frame, run.sum, run.harm)
    }

    // A character other than 0xFF in the preamble, after one 0xFF or after two.
    #[tactic(auto, using(crate::proofs::Frames::delimiters))]
    fn delimiter_at(&self, u: usize, v: u16, two: bool) -> Result<Outcome, Stop>
        requires within { (2 * u + 2 ≤ length self.now.bytes.now) }
        requires tick_is { TickIs self.now.bytes.now u v × (v % 256 ≡ 32) × (v / 256 ≡ 255 → ⊥) }
        ensures { FrameIs self.now.bytes.now u (in_preamble two) result }
    {
        if !two {
            return Ok(Outcome::Breaks(u));
        }
        let c = character_of(v);
        match frame::delimiter_of(c) {
            Some(d) => { self.head_from(u + 1, head_length(d.long, d.expansion), d.kind, c) }
            None => Ok(Outcome::Breaks(u)),
        }
    }

    // A character in the preamble, damaged or not, that is no undamaged 0xFF.
    #[tactic(auto, using(crate::proofs::Frames::others))]
    fn other_at(&self, u: usize, v: u16, two: bool) -> Result<Outcome, Stop>
        requires within { (2 * u + 2 ≤ length self.now.bytes.now) }
        requires tick_is { TickIs self.now.bytes.now u v × (v ≡ 0 → ⊥) × (v ≡ 65312 → ⊥) }
        ensures { FrameIs self.now.bytes.now u (in_preamble two) result }
    {
        if v % 256 == 32 {
            self.delimiter_at(u, v, two)
        } else {
            Ok(Outcome::Breaks(u))
        }
    }

    // The preamble, after one 0xFF or after two, from a tick on.
    #[tactic(auto, using(crate::proofs::Frames::preambles))]
    fn preamble_with_gaps(&self, from: usize, prior: bool) -> Result<Outcome, Stop>
        requires { (2 * from ≤ length self.now.bytes.now) }
        ensures { FrameIs self.now.bytes.now from (in_preamble prior) result }
    {
        let ticks = self.bytes.len() / 2;
        let mut t = from;
        let mut two = prior;
        while t < ticks {
            let u = self.next_character(t)?;
            let v = self.tick_at(u);
            if v != 0xFF20 {
                return self.other_at(u, v, two);
            }
            t = u + 1;
            two = true;
        }
        Err(Stop::Over)
    }

    // The preamble from its second character on: first each 0xFF that follows without a gap, then those with silent ticks between them.
    #[tactic(auto, using(crate::proofs::Frames::fast_preambles))]
    fn preamble_from(&self, from: usize) -> Result<Outcome, Stop>
        requires { (2 * from ≤ length self.now.bytes.now) }
        ensures { FrameIs self.now.bytes.now from (blank (Place.Preamble 1)) result }
    {
        let mut two = false;
        for t in from..self.bytes.len() / 2 {
            if self.tick_at(t) != 0xFF20 {
                return self.preamble_with_gaps(t, two);
            }
            two = true;
        }
        Err(Stop::Over)
    }

    // A frame, or a break, from a tick with a character on; before that tick the reader is before a frame.
    #[tactic(auto, using(crate::proofs::Frames::frames))]
    fn frame_from(&self, t: usize) -> Result<Outcome, Stop>
        requires { SoundTick self.now.bytes.now t }
        ensures { FrameIs self.now.bytes.now t idle result }
    {
        if self.tick_at(t) == 0xFF20 {
            self.preamble_from(t + 1)
        } else {
            Ok(Outcome::Breaks(t))
        }
    }

    // The first silent tick from t on, or the recording's end.
    #[tactic(auto, using(crate::proofs::Skips::silences))]
    fn silence_from(&self, from: usize) -> usize
        requires { (2 * from ≤ length self.now.bytes.now) × (1 ≤ from) }
        ensures { LeftOut self.now.bytes.now from passing result idle }
    {
        let ticks = self.bytes.len() / 2;
        for t in from..ticks {
            if self.tick_at(t) == 0 {
                return t;
            }
        }
        ticks
    }

    // The first character from t on, or the recording's end.
    #[tactic(auto, using(crate::proofs::Skips::sounds))]
    fn sound_from(&self, from: usize) -> usize
        requires { (2 * from ≤ length self.now.bytes.now) }
        ensures { SoundFrom self.now.bytes.now from result }
    {
        let ticks = self.bytes.len() / 2;
        for t in from..ticks {
            if self.tick_at(t) != 0 {
                return t;
            }
        }
        ticks
    }

    // The entry of a tick with a character; before that tick the reader is before a frame.
    #[tactic(auto, using(crate::proofs::Lists::items))]
    fn item_at(&self, t: usize) -> Option<Item>
        requires { SoundTick self.now.bytes.now t }
        ensures { ItemIs self.now.bytes.now t result }
    {
        let (tick, verdict, next) = match self.frame_from(t) {
            Ok(Outcome::Ends(u, verdict)) => (u, verdict, u + 1),
            Ok(Outcome::Breaks(u)) => (u, 0, self.silence_from(u + 1)),
            Err(Stop::Broke(u)) => (u, 0, u + 1),
            Err(Stop::Over) => return None,
        };
        Some(Item {
            tick,
            verdict,
            next,
        })
    }

    // The entries from a tick on at which the reader is before a frame, after some others: put or only counted. Returns how many there are then.
    #[tactic(auto, using(crate::proofs::Lists::goings))]
    fn entries_from(&self, from: usize, prior: usize, put: bool, out: &mut [u8]) -> usize
        requires within { (2 * from ≤ length self.now.bytes.now) × (prior ≤ from) }
        requires has_room { HasRoom put (9 * prior + length (found_from self.now.bytes.now from idle)) out.old }
        ensures { EntriesAre put (found_from self.now.bytes.now from idle) prior out.old result out.new }
    {
        let ticks = self.bytes.len() / 2;
        let mut t = from;
        let mut n = prior;
        while t < ticks {
            let s = self.sound_from(t);
            if ticks <= s {
                return n;
            }
            let Some(item) = self.item_at(s) else {
                return n;
            };
            put_if(put, out, n, item.tick, item.verdict);
            t = item.next;
            n += 1;
        }
        n
    }

    // All entries, put at the front of the buffer or only counted. Returns how many there are.
    #[tactic(auto, using(crate::proofs::Lists::starts))]
    fn entries(&self, put: bool, out: &mut [u8]) -> usize
        requires { HasRoom put (length (listing_of self.now.bytes.now)) out.old }
        ensures { EntriesAre put (listing_of self.now.bytes.now) 0 out.old result out.new }
    {
        if self.bytes.len() < 2 {
            return 0;
        }
        if self.tick_at(0) == 0 {
            return self.entries_from(0, 0, put, out);
        }
        put_if(put, out, 0, 0, 0);
        self.entries_from(self.silence_from(1), 1, put, out)
    }

    // Whether the buffer has room for the list. It has at most half as many entries as ticks, rounded up: with room for these nothing is counted.
    #[tactic(auto, using(crate::proofs::Lists::rooms))]
    fn has_room(&self, out: &mut [u8]) -> bool
        ensures { RoomIs self.now.bytes.now out.old result out.new }
    {
        let room = out.len() / 9;
        self.bytes.len() / 2 < room * 2 || self.entries(false, out) <= room
    }
}

// Lists the frames and breaks of a recording, at the front of a buffer. A refusal leaves the buffer as it was.
#[tactic(auto, using(crate::proofs::Lists::lists))]
pub fn list(recording: &[u8], out: &mut [u8]) -> Result<usize, Refusal>
    ensures { ListIs recording.now out.old result out.new }
{
    if recording::is_bad(recording) {
        return Err(Refusal::BadRecording);
    }
    let ticks = Ticks { bytes: recording };
    if !ticks.has_room(out) {
        return Err(Refusal::BufferShort);
    }
    Ok(ticks.entries(true, out))
}
