// A recording of what a party hears, two bytes for each tick.
#![tactic(auto, using(base::proofs::Choices::choices, crate::proofs::Forms::forms))]

ghost use Rattle.std.specs.Prelude.{◌≡◌, ◌≤◌};
ghost use Rattle.base.specs.Choice.{when◌then◌else◌, ◌=?◌, ◌<?◌};
ghost use Rattle.recording.specs.Form.{bad_recording};
ghost use Rattle.recording.specs.Marks.{is_marked, or_marked, BadnessIs};
ghost use Rattle.recording.specs.Recording.{TickAt};

// The two bytes of a tick as one number, the character the high byte; 0 where there is no such tick. It is compiled to one load, and a loop over ticks to vectors.
pub fn tick_at(recording: &[u8], t: usize) -> u16
    ensures { TickAt recording.now t result }
{
    if t < recording.len() / 2 {
        u16::from(recording[2 * t]) + 256 * u16::from(recording[2 * t + 1])
    } else {
        0
    }
}

// Not 0 for a first byte above those of kind 4.
fn above(first: u16) -> u16
    ensures { result ≡ (when 128 <? first then 1 else 0) }
{
    if 128 < first { 1 } else { 0 }
}

// Not 0 for silence with a character.
fn in_silence(first: u16, v: u16) -> u16
    ensures { result ≡ (when first =? 0 then v else 0) }
{
    if first == 0 { v } else { 0 }
}

// 0 just for the two bytes of a tick that a recording may have.
fn badness(v: u16) -> u16
    ensures { BadnessIs v result }
{
    let first = v % 256;
    first % 32 | above(first) | in_silence(first, v)
}

// Whether no recording has these bytes. It goes on to the end, whatever it meets: a loop that can stop is not compiled to vectors.
pub fn is_bad(recording: &[u8]) -> bool
    ensures { result ≡ bad_recording recording.now }
{
    let ticks = recording.len() / 2;
    let mut bad = 0;
    for t in 0..ticks {
        bad |= badness(tick_at(recording, t));
    }
    bad != 0 || recording.len() % 2 == 1
}
