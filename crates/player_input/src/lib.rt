// What the programs play and convert share: the script on standard input, and a refusal that is printed.
#![tactic(auto)]

ghost use Rattle.std.specs.Prelude.{◌≡◌, ◌<◌, length, take};
ghost use Rattle.player_script.specs.Script.{records_in};
ghost use Rattle.player_script.specs.Pieces.{up_to, walked_by, walked_as};
ghost use Rattle.player_input.specs.Input.{held_in, end_kept, EndStays, end_of};

use base::Refusal;
use player_script::Form;
use std::io;
use std::io::Read;

// Room for 524,290 records of the new form: one more than the longest good old script has.
pub const ROOM: usize = 3_145_740;

// The bytes of a full room that are walked before more is read: whole records of either form.
const PIECE: usize = 3_145_728;

// A script on standard input: so many bytes; or longer than the room, and then good, with its stop's tick, or bad. Three cases, so no Option or Result.
#[derive(Clone, Copy)]
pub enum Input {
    Whole(usize),
    LongGood(u32),
    LongBad,
}

// A refusal's number, a line of its own.
pub fn print_refusal(rt: &impl Print, why: Refusal) -> io::Result<()> {
    println!(rt; "{}", why.number())
}

// The first bytes of a room, so many, are walked as calls.
#[tactic(auto, using(crate::proofs::Rooms::front_walked))]
fn walk_front(
    form: Form,
    room: &[u8],
    count: usize,
    last: usize,
    marks: &mut [usize; 8],
) -> Option<usize>
    ensures { walked_as result marks.new ≡ walked_by (up_to last marks.old) (records_in form (take count room.now)) }
{
    player_script::walk(form, texts::front(room, count), last, marks)
}

// Its other bytes, at least one record, go to the front: within one slice, so byte by byte.
fn keep_end(room: &mut [u8])
    requires { length room.old ≡ 3145740 }
    ensures { room.new ≡ end_kept room.old }
{
    for i in 0..12 {
        room[i] = room[PIECE + i];
    }
}

// More of the script, after them; how many bytes were read.
fn read_more<R: Read>(reader: &mut R, room: &mut [u8]) -> usize
    requires { length room.old ≡ 3145740 }
    ensures { EndStays room.old room.new }
{
    keep_end(room);
    program_files::read_full(reader, &mut room[12..])
}

// What the last bytes of a script tell of it, after the pieces that were walked.
#[tactic(auto, using(crate::proofs::Told::ends))]
fn end_of(form: Form, rest: &[u8], last: usize, marks: &mut [usize; 8]) -> Input
    ensures { result ≡ end_of form (up_to last marks.old) rest.now }
{
    if player_script::good_after(form, rest, last, marks) {
        Input::LongGood(player_script::stop_tick(form, rest))
    } else {
        Input::LongBad
    }
}

// A script that fills the room, read to its end or to a bad record. No tick is above 32 bits, so the loop is left by a return.
fn read_long<R: Read>(form: Form, reader: &mut R, room: &mut [u8]) -> Input
    requires { length room.old ≡ 3145740 }
    ensures { held_in result < 3145740 }
{
    let mut marks = [0usize; 8];
    let mut last = 0;
    while last < 4_294_967_296 {
        let Some(tick) = walk_front(form, room, PIECE, last, &mut marks) else {
            return Input::LongBad;
        };
        last = tick;
        let n = read_more(reader, room);
        if n < PIECE {
            return end_of(form, texts::front(room, 12 + n), last, &mut marks);
        }
    }
    Input::LongBad
}

// The script that a reader has. A read that fails looks like the script's end.
pub fn read<R: Read>(form: Form, reader: &mut R, script: &mut [u8; ROOM]) -> Input
    ensures { held_in result < 3145740 }
{
    let n = program_files::read_full(reader, script);
    if n < ROOM {
        Input::Whole(n)
    } else {
        read_long(form, reader, script)
    }
}
