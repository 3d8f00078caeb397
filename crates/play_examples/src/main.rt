// Plays the scripts that its arguments name, and prints each name with its listing.
#![tactic(auto)]

use std::env::Env;
use std::fs::Files;
use std::io;
use std::io::Read;

// Room for the longest script of the examples, and for its listing.
const ROOM: usize = 65_536;

// What the player prints for a script of the old form.
fn print_listing(rt: &impl Print, script: &[u8]) -> io::Result<()> {
    let mut out = [0u8; ROOM];
    let n = player::play_into(4, script, &mut out);
    rt.write_all(texts::front(&out, n))
}

// Plays an open file.
fn print_file<R: Read>(rt: &impl Print, file: &mut R) -> io::Result<()> {
    let mut script = [0u8; ROOM];
    let n = program_files::read_full(file, &mut script);
    print_listing(rt, &script[..n])
}

// Plays the script that an argument names.
fn print_script(rt: &(impl Env + Files + Print + Eprint), i: usize) -> io::Result<()> {
    let mut name = [0u8; program_files::ARGUMENT];
    let n = program_files::argument(rt, i, &mut name);
    match program_files::open_argument(rt, i)? {
        Some(mut file) => {
            rt.write_all(&name[..n])?;
            rt.write_all(b"\n")?;
            print_file(rt, &mut file)
        }
        None => Ok(()),
    }
}

fn main(rt: HostRuntime) -> io::Result<()> {
    for i in 1..program_files::argument_count(&rt) {
        print_script(&rt, i)?;
    }
    Ok(())
}
