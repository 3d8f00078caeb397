// Scripts turned from one form into the other.
#![tactic(auto)]

ghost use Rattle.std.specs.Prelude.{◌≡◌, true, ◌*◌, ◌%◌, ◌≤◌, length};
ghost use Rattle.player_script.specs.Script.{records_in, good_in};
ghost use Rattle.player_script.specs.declared.Form.TheVariants.{Old, New};
ghost use Rattle.player_convert.specs.Turn.{turned, by_room, by_ticks, converted, conversion, ConvertIs, Sayable, PutsRecords};

use base::Refusal;
use player_script::Form;

// Puts an old script's records in the new form at the front of the lent bytes; returns how many bytes they take.
#[tactic(auto, using(crate::proofs::Widening::widenings))]
fn widen(script: &[u8], out: &mut [u8]) -> usize
    requires { (length script.now % 4 ≡ 0) × (3 * length script.now ≤ 2 * length out.old) }
    ensures { PutsRecords Old New script.now out.old result out.new }
{
    let mut at = 0;
    let mut to = 0;
    while at < script.len() {
        // Both places jump by a record's width.
        out[to..to + 6].copy_from_slice(&[
            0,
            0,
            script[at],
            script[at + 1],
            script[at + 2],
            script[at + 3],
        ]);
        at += 4;
        to += 6;
    }
    to
}

// Puts a new script's records, whose ticks fit, in the old form. No one function with `widen`: other bytes move, and more is asked.
#[tactic(auto, using(crate::proofs::Narrowing::narrowings))]
fn narrow(script: &[u8], out: &mut [u8]) -> usize
    requires { (length script.now % 6 ≡ 0) × (2 * length script.now ≤ 3 * length out.old) × Sayable Old (records_in New script.now) }
    ensures { PutsRecords New Old script.now out.old result out.new }
{
    let mut at = 0;
    let mut to = 0;
    while at < script.len() {
        // Both places jump by a record's width.
        out[to..to + 4].copy_from_slice(&script[at + 2..at + 6]);
        at += 6;
        to += 4;
    }
    to
}

// An old script into the new form, if there is room.
#[tactic(auto, using(crate::proofs::Converts::rooms))]
fn into_new(script: &[u8], out: &mut [u8]) -> Result<usize, Refusal>
    requires { length script.now % 4 ≡ 0 }
    ensures { ConvertIs (by_room (turned New (records_in Old script.now)) (length out.old)) out.old result out.new }
{
    if out.len() / 6 < script.len() / 4 {
        return Err(Refusal::BufferShort);
    }
    Ok(widen(script, out))
}

// A new script into the old form, if there is room. Its ticks fit.
#[tactic(auto, using(crate::proofs::Converts::rooms))]
fn into_old(script: &[u8], out: &mut [u8]) -> Result<usize, Refusal>
    requires { (length script.now % 6 ≡ 0) × Sayable Old (records_in New script.now) }
    ensures { ConvertIs (by_room (turned Old (records_in New script.now)) (length out.old)) out.old result out.new }
{
    if out.len() / 4 < script.len() / 6 {
        return Err(Refusal::BufferShort);
    }
    Ok(narrow(script, out))
}

// Turns a good new script back, if its ticks fit: the stop's tick is the largest.
#[tactic(auto, using(crate::proofs::Converts::converts))]
fn turn_back(script: &[u8], out: &mut [u8]) -> Result<usize, Refusal>
    requires { good_in New script.now ≡ true }
    ensures { ConvertIs (by_ticks New script.now (length out.old)) out.old result out.new }
{
    if 65535 < player_script::stop_tick(Form::New, script) {
        return Err(Refusal::TickTooLarge);
    }
    into_old(script, out)
}

// Turns a good script. An old one's ticks always fit.
#[tactic(auto, using(crate::proofs::Converts::converts))]
fn convert_good(form: Form, script: &[u8], out: &mut [u8]) -> Result<usize, Refusal>
    requires { good_in form script.now ≡ true }
    ensures { ConvertIs (by_ticks form script.now (length out.old)) out.old result out.new }
{
    match form {
        Form::Old => into_new(script, out),
        Form::New => turn_back(script, out),
    }
}

#[tactic(auto, using(crate::proofs::Converts::converts))]
fn convert_from(form: Form, script: &[u8], out: &mut [u8]) -> Result<usize, Refusal>
    ensures { ConvertIs (converted form script.now (length out.old)) out.old result out.new }
{
    if player_script::is_good(form, script) {
        convert_good(form, script, out)
    } else {
        Err(Refusal::BadScript)
    }
}

// Turns a script whose records have so many bytes, 4 or 6, into the other form, at the front of the lent bytes. A refusal is 24, 16, 25 or 15, and leaves them as they were.
#[tactic(auto, using(crate::proofs::Converts::converts))]
pub fn convert(size: usize, script: &[u8], out: &mut [u8]) -> Result<usize, Refusal>
    ensures { ConvertIs (conversion size script.now (length out.old)) out.old result out.new }
{
    let form = player_script::form_of(size)?;
    convert_from(form, script, out)
}
