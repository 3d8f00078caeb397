// The modem chip of document 02, item 5: its registers, its tick, and a driver that hears and sends through them.
//
// In a tick: `arrive` with what the line carried in the tick before; then any reads and writes of registers; then `end_tick`, which says what goes out.
#![tactic(auto, using(base::proofs::Choices::choices))]

ghost use Rattle.std.specs.Prelude.{◌≡◌, ◌≤◌};
ghost use Rattle.base.specs.Choice.{when◌then◌else◌};
ghost use Rattle.modem.specs.Parity.{ninth, kind_of};
ghost use Rattle.modem.specs.Chip.{fresh_chip, receives, arrives, interrupt, interrupt_ready, status_by, status, count_byte, register_at, controlled, loaded, tick_ends, elapsed};
ghost use Rattle.modem.specs.Accesses.{register_read, register_written, looks, puts};
ghost use Rattle.modem.specs.Driver.{damaged_by, heard_from, hears, transmits, stays_silent};
ghost use Rattle.base.specs.Refusal.{called_as};

use base::Refusal;
use line::{Damage, Heard};

// A mark that the line carries beside the nine bits.
#[derive(Clone, Copy)]
pub enum Mark {
    Sound,
    Overrun,
    Framing,
}

// What the line carries in a tick: nothing, or a character, its ninth bit and a mark. No Option, since the laws of the line name both cases.
#[derive(Clone, Copy)]
pub enum Carried {
    Silence,
    Nine(u8, bool, Mark),
}

// The chip. The fields' order is chosen for speed: docs/BENCHMARKS.md, "Behind a modem chip".
#[derive(Clone, Copy)]
pub struct Chip {
    // byte 1
    pub control: u8,
    // byte 2, read: the last character received
    pub latest: u8,
    // status bits 7, 5 and 4
    pub carrier: bool,
    pub received: bool,
    pub ready: bool,
    // whether a character goes out at the end of this tick, and which
    pub sending: bool,
    pub outgoing: u8,
    // it sent in the tick before, and hears nothing in this one
    pub deaf: bool,
    // bytes 4 to 7
    pub count: u32,
    // byte 3: how it was damaged
    pub kind: u8,
}

// What a register shows, and the chip after the read.
#[derive(Clone, Copy)]
pub struct Looked {
    pub value: u8,
    pub chip: Chip,
}

// The chip after a tick, and what goes out in it.
#[derive(Clone, Copy)]
pub struct TickEnded {
    pub chip: Chip,
    pub carried: Carried,
}

// The chip after the driver has heard, and what was heard.
#[derive(Clone, Copy)]
pub struct ChipHeard {
    pub chip: Chip,
    pub heard: Heard,
}

// The ninth bit of a character: odd parity.
pub fn ninth_bit(c: u8) -> bool
    ensures { result ≡ ninth c }
{
    c.count_ones() % 2 == 0
}

// 0 where the ninth bit is right, 1 where it is wrong.
fn parity_kind(c: u8, bit: bool) -> u8
    ensures { result ≡ kind_of c bit Mark.Sound }
{
    if bit == ninth_bit(c) { 0 } else { 1 }
}

// The damage kind of what the line carried: a mark is kept.
fn kind_of(c: u8, bit: bool, mark: Mark) -> u8
    ensures { result ≡ kind_of c bit mark }
{
    match mark {
        Mark::Sound => parity_kind(c, bit),
        Mark::Overrun => 2,
        Mark::Framing => 3,
    }
}

// A chip at its start: all is 0, but for ready.
pub fn fresh() -> Chip
    ensures { result ≡ fresh_chip }
{
    Chip {
        count: 0,
        control: 0,
        latest: 0,
        kind: 0,
        carrier: false,
        received: false,
        ready: true,
        sending: false,
        outgoing: 0,
        deaf: false,
    }
}

// The kind that byte 3 shows for a character that arrives.
fn kind_kept(x: Chip, c: u8, bit: bool, mark: Mark) -> u8
    ensures { result ≡ (when x.received then 2 else kind_of c bit mark) }
{
    if x.received { 2 } else { kind_of(c, bit, mark) }
}

fn nine_arrive(x: Chip, c: u8, bit: bool, mark: Mark) -> Chip
    ensures { result ≡ arrives x (Carried.Nine c bit mark) }
{
    if x.deaf {
        Chip {
            carrier: false,
            ..x
        }
    } else {
        Chip {
            carrier: true,
            latest: c,
            kind: kind_kept(x, c, bit, mark),
            received: true,
            ..x
        }
    }
}

// A tick begins, with what the line carried in the tick before.
pub fn arrive(x: Chip, carried: Carried) -> Chip
    ensures { result ≡ arrives x carried }
{
    match carried {
        Carried::Silence => Chip {
            carrier: false,
            ..x
        },
        Carried::Nine(c, bit, mark) => nine_arrive(x, c, bit, mark),
    }
}

fn interrupt_ready(x: Chip) -> bool
    ensures { result ≡ interrupt_ready x }
{
    x.ready && x.control / 32 % 2 == 1
}

// Status bit 3.
fn interrupt_of(x: Chip) -> bool
    ensures { result ≡ interrupt x }
{
    (x.received && x.control / 64 % 2 == 1) || interrupt_ready(x)
}

// A bit of the status byte.
fn shown(on: bool, bit: u8) -> u8
    ensures { (result ≡ (when on then bit else 0)) × (result ≤ bit) }
{
    if on { bit } else { 0 }
}

// The status byte, with the arithmetic of its definition.
fn status_by(x: Chip, interrupting: bool) -> u8
    ensures { result ≡ status_by x interrupting }
{
    shown(x.carrier, 128)
        + x.control / 128 % 2 * 64
        + shown(x.received, 32)
        + shown(x.ready, 16)
        + shown(interrupting, 8)
}

fn status_of(x: Chip) -> u8
    ensures { result ≡ status x }
{
    status_by(x, interrupt_of(x))
}

// A byte of the tick count, most significant first, with the arithmetic of its definition.
fn count_byte(count: u32, n: usize) -> u8
    ensures { result ≡ count_byte count n }
{
    match n {
        4 => (count / 16777216 % 256) as u8,
        5 => (count / 65536 % 256) as u8,
        6 => (count / 256 % 256) as u8,
        _ => (count % 256) as u8,
    }
}

// What a register shows.
fn register_at(x: Chip, n: usize) -> u8
    ensures { result ≡ register_at x n }
{
    match n {
        0 => status_of(x),
        1 => x.control,
        2 => x.latest,
        3 => x.kind,
        _ => count_byte(x.count, n),
    }
}

// Reads a register. Reading byte 2 clears status bit 5.
pub fn read(x: Chip, n: usize) -> Result<Looked, Refusal>
    ensures { called_as result ≡ register_read x n }
{
    if 7 < n {
        return Err(Refusal::Register);
    }
    let value = register_at(x, n);
    let chip = if n == 2 {
        Chip {
            received: false,
            ..x
        }
    } else {
        x
    };
    Ok(Looked { value, chip })
}

// Writes a register.
pub fn write(x: Chip, n: usize, v: u8) -> Result<Chip, Refusal>
    ensures { called_as result ≡ register_written x n v }
{
    match n {
        1 => Ok(Chip {
            control: v / 32 * 32,
            ..x
        }),
        2 if x.ready => Ok(Chip {
            ready: false,
            sending: x.control / 128 % 2 == 1,
            outgoing: v,
            ..x
        }),
        // a tick's later writes are lost
        2 => Ok(x),
        _ => Err(Refusal::Register),
    }
}

// A tick ends: what goes out, and the chip after it.
pub fn end_tick(x: Chip) -> TickEnded
    ensures { result ≡ tick_ends x }
{
    let chip = Chip {
        count: x.count.wrapping_add(1),
        ready: true,
        sending: false,
        deaf: x.sending,
        ..x
    };
    let carried = if x.sending {
        Carried::Nine(x.outgoing, ninth_bit(x.outgoing), Mark::Sound)
    } else {
        Carried::Silence
    };
    TickEnded { chip, carried }
}

// Ticks from one reading of the tick count to a later one.
pub fn elapsed_ticks(from: u32, to: u32) -> u32
    ensures { result ≡ elapsed from to }
{
    to.wrapping_sub(from)
}

// ---- the driver

// Reads a register; above byte 7 there is none, and it shows 0.
pub fn look(x: Chip, n: usize) -> Looked
    ensures { result ≡ looks x n }
{
    read(x, n).unwrap_or(Looked { value: 0, chip: x })
}

// Writes a register; a refused write changes nothing.
pub fn put(x: Chip, n: usize, v: u8) -> Chip
    ensures { result ≡ puts x n v }
{
    write(x, n, v).unwrap_or(x)
}

fn damaged_by(c: u8, kind: u8) -> Heard
    ensures { result ≡ damaged_by c kind }
{
    match kind {
        0 => Heard::Character(c),
        1 => Heard::Damaged(c, Damage::Parity),
        2 => Heard::Damaged(c, Damage::Overrun),
        _ => Heard::Damaged(c, Damage::Framing),
    }
}

// What status, damage kind and character say was heard.
fn heard_from(status: u8, kind: u8, c: u8) -> Heard
    ensures { result ≡ heard_from status kind c }
{
    if status / 32 % 2 == 1 {
        damaged_by(c, kind)
    } else {
        Heard::Silence
    }
}

// What was heard: status, byte 3, then byte 2 are read, in every tick.
pub fn hear(x: Chip) -> ChipHeard
    ensures { result ≡ hears x }
{
    let status = look(x, 0);
    let kind = look(status.chip, 3);
    let character = look(kind.chip, 2);
    ChipHeard {
        chip: character.chip,
        heard: heard_from(status.value, kind.value, character.value),
    }
}

// Sends a character in this tick: request to send, then the character. The interrupts stay as they are.
pub fn transmit(x: Chip, c: u8) -> Chip
    ensures { result ≡ transmits x c }
{
    let control = look(x, 1);
    let requesting = put(control.chip, 1, control.value % 128 + 128);
    put(requesting, 2, c)
}

// Sends nothing in this tick: no request to send.
pub fn stay_silent(x: Chip) -> Chip
    ensures { result ≡ stays_silent x }
{
    let control = look(x, 1);
    put(control.chip, 1, control.value % 128)
}
