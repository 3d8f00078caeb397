// What plays and what is played, for programs in C and Rust: the player, the conversion of scripts and the writer of loads.
#![tactic(auto)]

ghost use Rattle.texts.specs.Put.{PutIs};
ghost use Rattle.player.specs.Play.{play_sized};
ghost use Rattle.player_c.specs.Call.{ConvertCall, LoadCall};

// Plays a script whose records have so many bytes: what it prints at the front of out, as much as there is room for, and how much that is.
#[unsafe(no_mangle)]
pub extern "C" fn nengapiko_play(size: usize, script: &[u8], out: &mut [u8]) -> usize
    ensures { PutIs (play_sized size script.now) out.old 0 result out.new }
{
    player::play_into(size, script, out)
}

// Turns a script whose records have so many bytes into the other form, at the front of out, and sets end to its length; or gives the refusal's number and changes nothing.
#[tactic(auto, using(crate::proofs::Calls::calls))]
#[unsafe(no_mangle)]
pub extern "C" fn nengapiko_convert(
    size: usize,
    script: &[u8],
    out: &mut [u8],
    end: &mut usize,
) -> u32
    ensures { ConvertCall size script.now out end result }
{
    match player_convert::convert(size, script, out) {
        Ok(length) => {
            *end = length;
            0
        }
        Err(why) => why.number(),
    }
}

// Writes the script of a seed, four bytes for each of so many records, at the front of the buffer; or gives the refusal's number and changes nothing.
#[tactic(auto, using(crate::proofs::Calls::loads))]
#[unsafe(no_mangle)]
pub extern "C" fn nengapiko_load(seed: u32, count: u32, buffer: &mut [u8]) -> u32
    ensures { LoadCall seed count buffer result }
{
    match load_writer::write(seed, count, buffer) {
        Ok(_) => 0,
        Err(why) => why.number(),
    }
}
