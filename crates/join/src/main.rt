// Joins two recordings of one pair: join FIRST SECOND > JOINED. The files are read twice, a piece of each at a time, first for the answer and then to write: nothing is written for taps that are refused. A refusal is printed on standard error.
#![tactic(auto)]

use base::Refusal;
use program_files::Pieces;
use recording_join::JoinError;
use std::env::Env;
use std::fs::Files;
use std::io;
use std::io::{Read, Seek};

// Bytes of a full piece.
const PIECE: usize = 65_536;

// Ticks of a full piece.
const TICKS: usize = 32_768;

// More pieces than any file has; a loop has to end.
const PIECES: usize = 281_474_976_710_655;

fn say_refusal(rt: &impl Eprint, why: Refusal) -> io::Result<()> {
    match why {
        Refusal::BadRecording => eprintln!(rt;
            "join: 21: a recording has an odd length, or in a tick a value that no recording has"
        ),
        Refusal::UnequalTaps => eprintln!(rt; "join: 22: the recordings have unequal lengths"),
        _ => {
            let number = why.number();
            eprintln!(rt; "join: refused with {number}")
        }
    }
}

fn both_over<R: Read>(first: &mut Pieces<R, PIECE>, second: &mut Pieces<R, PIECE>) -> bool {
    program_files::is_over(first.file) && program_files::is_over(second.file)
}

// The answer for both files, made from the answers for their pieces.
fn answer_of<R: Read>(
    first: &mut Pieces<R, PIECE>,
    second: &mut Pieces<R, PIECE>,
    out: &mut [u8],
) -> Result<(), JoinError> {
    let mut answer = Ok(());
    for done in 0..PIECES {
        let one = program_files::next_piece(first);
        let other = program_files::next_piece(second);
        let piece = recording_join::join(one, other, out);
        answer = recording_join::pieced(TICKS * done, answer, piece);
        if one.len() < PIECE && other.len() < PIECE {
            return answer;
        }
    }
    answer
}

// Writes both files joined, piece by piece, and answers whether all of it was written.
fn write_joined<R: Read>(
    rt: &(impl Print + Eprint),
    first: &mut Pieces<R, PIECE>,
    second: &mut Pieces<R, PIECE>,
    out: &mut [u8],
) -> io::Result<bool> {
    for _ in 0..PIECES {
        let one = program_files::next_piece(first);
        let other = program_files::next_piece(second);
        let n = one.len();
        if recording_join::join(one, other, out).is_err()
            || !program_files::write_out(rt, "join: standard output", texts::front(out, n))?
        {
            return Ok(false);
        }
        if n < PIECE {
            return Ok(both_over(first, second));
        }
    }
    Ok(true)
}

// The second pass.
fn write_files<R: Read + Seek>(
    rt: &(impl Print + Eprint),
    first: &mut Pieces<R, PIECE>,
    second: &mut Pieces<R, PIECE>,
    out: &mut [u8],
) -> io::Result<()> {
    if !program_files::goes_back(first.file) || !program_files::goes_back(second.file) {
        return eprintln!(rt; "join: a recording is no file that can be read twice");
    }
    if write_joined(rt, first, second, out)? {
        return Ok(());
    }
    eprintln!(rt; "join: what was written is not the whole joined recording")
}

// Both passes.
fn join_files<R: Read + Seek>(
    rt: &(impl Print + Eprint),
    first: &mut R,
    second: &mut R,
) -> io::Result<()> {
    let mut first = Pieces {
        file: first,
        room: [0; PIECE],
    };
    let mut second = Pieces {
        file: second,
        room: [0; PIECE],
    };
    let mut out = [0u8; PIECE];
    let answer = answer_of(&mut first, &mut second, &mut out);
    if !both_over(&mut first, &mut second) {
        return eprintln!(rt; "join: a recording cannot be read to its end");
    }
    match answer {
        Ok(()) => write_files(rt, &mut first, &mut second, &mut out),
        Err(JoinError::Refused(why)) => say_refusal(rt, why),
        Err(JoinError::Differ(t)) => {
            eprintln!(rt; "join: 23: two different characters in tick {t}")
        }
    }
}

// The files that both arguments name.
fn join_named(rt: &(impl Env + Files + Print + Eprint)) -> io::Result<()> {
    let Some(mut first) = program_files::open_argument(rt, 1)? else {
        return Ok(());
    };
    let Some(mut second) = program_files::open_argument(rt, 2)? else {
        return Ok(());
    };
    join_files(rt, &mut first, &mut second)
}

fn main(rt: HostRuntime) -> io::Result<()> {
    if program_files::argument_count(&rt) == 3 {
        return join_named(&rt);
    }
    eprintln!(rt; "use: join FIRST SECOND > JOINED")
}
