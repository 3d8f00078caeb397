// Writes the script of a load to standard output: its arguments are the seed and the number of records, in decimal. A refusal is printed as its number.
#![tactic(auto)]

ghost use Rattle.std.specs.Prelude.{◌≡◌};
ghost use Rattle.load.specs.Arguments.{number_from};

use std::env::Env;
use std::io;

// Room for the longest script.
const ROOM: usize = 262_144;

// A number in decimal, or 0, as the definition has it and the writer refuses.
#[tactic(auto, using(base::proofs::Choices::inside_low, crate::proofs::Numbers::reads))]
fn number_of(text: &[u8]) -> u32
    ensures { result ≡ number_from 0 text.now }
{
    let mut n: usize = 0;
    for c in text {
        let c = *c as usize;
        if base::outside(c, 48, 57) {
            return 0;
        }
        n = n * 10 + (c - 48);
        if 4294967295 < n {
            return 0;
        }
    }
    n as u32
}

// An argument as a number; 0 where there are more or fewer than two.
fn argument(rt: &impl Env, i: usize) -> u32 {
    let mut text = [0u8; program_files::ARGUMENT];
    let n = program_files::argument(rt, i, &mut text);
    if program_files::argument_count(rt) == 3 {
        number_of(&text[..n])
    } else {
        0
    }
}

// Prints the script, which is written into this buffer first, or a refusal's number as a line of its own.
fn print_load(rt: &impl Print, seed: u32, count: u32, script: &mut [u8]) -> io::Result<()> {
    match load_writer::write(seed, count, script) {
        Ok(end) => rt.write_all(texts::front(script, end)),
        Err(why) => println!(rt; "{}", why.number()),
    }
}

fn main(rt: HostRuntime) -> io::Result<()> {
    let mut script = [0u8; ROOM];
    print_load(&rt, argument(&rt, 1), argument(&rt, 2), &mut script)
}
