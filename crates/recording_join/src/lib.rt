// Two recordings of one pair, joined into one: document 02, item 10.
#![tactic(auto, using(base::proofs::Choices::choices))]

ghost use Rattle.std.specs.Prelude.{◌≡◌, ◌+◌, ◌/◌, ◌%◌, ◌≤◌, true, false, length};
ghost use Rattle.base.specs.Choice.{when◌then◌else◌, ◌<?◌};
ghost use Rattle.base.specs.Store.{stored};
ghost use Rattle.recording.specs.Form.{bad_recording};
ghost use Rattle.recording_join.specs.Joining.{joined_of, difference_of, JoinIs};
ghost use Rattle.recording_join.specs.Pieces.{refused_by, pieced, largest_tick, within64};
ghost use Rattle.recording_join.specs.Choosing.{takes_second, differs, DifferenceJoinIs};

use base::Refusal;

// Why two recordings are not joined: a refusal, or the first tick with two different characters, which refusal 23 names.
#[derive(Clone, Copy)]
pub enum JoinError {
    Refused(Refusal),
    Differ(usize),
}

// Whether the second tap's tick is taken, by the first bytes of both.
#[tactic(auto, using(base::proofs::Choices::choices), unfolding(crate::specs::Choosing::takes_second))]
fn takes_second(x: u16, y: u16) -> bool
    ensures { result ≡ takes_second x y }
{
    y != 0 && (x == 0 || y < x)
}

// Which of two ticks is taken, as one number each.
fn taken(v: u16, w: u16) -> u16
    ensures { result ≡ (when takes_second (v % 256) (w % 256) then w else v) }
{
    if takes_second(v % 256, w % 256) { w } else { v }
}

// Whether two ticks are two different characters.
#[tactic(auto, using(base::proofs::Choices::choices), unfolding(crate::specs::Choosing::differs))]
fn differ(v: u16, w: u16) -> bool
    ensures { result ≡ differs v w }
{
    v % 256 == 32 && w % 256 == 32 && v != w
}

// How many ticks two recordings of equal length have: the lower number. By it the compiler sees that each place is within both, and compiles a loop over ticks to vectors.
fn ticks_of_both(first: &[u8], second: &[u8]) -> usize
    requires { length first.now ≡ length second.now }
    ensures { result ≡ length first.now / 2 }
{
    (first.len() / 2).min(second.len() / 2)
}

// The first tick with two different characters. A loop, and not the iterator's `find`: what that promises of its calls did not lead to the proof.
#[tactic(auto, using(crate::proofs::Loops::searches))]
fn first_difference(first: &[u8], second: &[u8]) -> Option<usize>
    requires first_value { (bad_recording first.now ≡ false) × (bad_recording second.now ≡ false) }
    requires first_len { length first.now ≡ length second.now }
    ensures { result ≡ difference_of first.now second.now }
{
    for t in 0..ticks_of_both(first, second) {
        if differ(recording::tick_at(first, t), recording::tick_at(second, t)) {
            return Some(t);
        }
    }
    None
}

// The joined ticks, at the front of a buffer: by places, so that the loop is compiled to vectors.
#[tactic(auto, using(crate::proofs::Loops::joinings))]
fn join_into(first: &[u8], second: &[u8], out: &mut [u8])
    requires first_value { (bad_recording first.now ≡ false) × (bad_recording second.now ≡ false) }
    requires first_len { length first.now ≡ length second.now }
    requires first_in_bounds { length first.now ≤ length out.old }
    requires second_value { difference_of first.now second.now ≡ None }
    ensures { out.new ≡ stored out.old 0 (joined_of first.now second.now) }
{
    for t in 0..ticks_of_both(first, second) {
        let v = taken(recording::tick_at(first, t), recording::tick_at(second, t));
        out[2 * t] = (v % 256) as u8;
        out[2 * t + 1] = (v / 256) as u8;
    }
}

// The two joined, or the answer of the search.
fn by_difference(first: &[u8], second: &[u8], out: &mut [u8]) -> Result<(), JoinError>
    requires first_value { (bad_recording first.now ≡ false) × (bad_recording second.now ≡ false) }
    requires first_len { length first.now ≡ length second.now }
    requires first_in_bounds { length first.now ≤ length out.old }
    ensures { DifferenceJoinIs first.now second.now out.old result out.new }
{
    if let Some(t) = first_difference(first, second) {
        return Err(JoinError::Differ(t));
    }
    join_into(first, second, out);
    Ok(())
}

// Joins two recordings of one pair that begin in the same tick, at the front of a buffer. A refusal leaves the buffer as it was.
pub fn join(first: &[u8], second: &[u8], out: &mut [u8]) -> Result<(), JoinError>
    ensures { JoinIs first.now second.now out.old result out.new }
{
    if recording::is_bad(first) || recording::is_bad(second) {
        return Err(JoinError::Refused(Refusal::BadRecording));
    }
    if first.len() != second.len() {
        return Err(JoinError::Refused(Refusal::UnequalTaps));
    }
    if out.len() < first.len() {
        return Err(JoinError::Refused(Refusal::BufferShort));
    }
    by_difference(first, second, out)
}

// Which of two refusals applies, the second being for what follows: 21 comes first.
fn refused_by(why: Refusal, other: Refusal) -> Refusal
    ensures { result ≡ refused_by why other }
{
    if why.number() == Refusal::BadRecording.number() {
        why
    } else {
        other
    }
}

// The answer for so many ticks and what follows them, made from the answers for each.
#[tactic(auto, using(base::proofs::Choices::choices), unfolding(crate::specs::Pieces::pieced, crate::specs::Pieces::within64))]
pub fn pieced(
    ticks: usize,
    earlier: Result<(), JoinError>,
    later: Result<(), JoinError>,
) -> Result<(), JoinError>
    ensures { result ≡ within64 (pieced ticks earlier later) }
{
    match (earlier, later) {
        (Ok(()), Err(JoinError::Differ(t))) => Err(JoinError::Differ(ticks.saturating_add(t))),
        (Ok(()), _) => later,
        (Err(JoinError::Refused(why)), Err(JoinError::Refused(other))) => {
            Err(JoinError::Refused(refused_by(why, other)))
        }
        (Err(JoinError::Differ(_)), Err(JoinError::Refused(_))) => later,
        (Err(_), _) => earlier,
    }
}
