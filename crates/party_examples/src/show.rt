// Lines of text for what a master and a device do: what a party sent, and what a party heard, found, told its host or refused in a tick.
// The words of what is heard, found and told stand in port_examples too, whose functions have another form; in a library each would have to promise its text, and nothing is promised of what is printed here.
ghost use Rattle.std.specs.Prelude.{◌≡◌, ◌<◌};
ghost use Rattle.party_examples.specs.Lines.{event_shows, tells_host, has_line};

use device_tick::DeviceTicked;
use example_texts::print_line;
use line::{Damage, Event, Heard, Whole};
use master::MasterTicked;
use std::io;
use texts::{put_all_spaced, put_bytes, put_field, put_spaced};
use turns::{CallResult, DeviceTold, MasterTold};

// What a party hears in a tick, and whether the script changed it.
#[derive(Clone, Copy)]
pub struct Reception {
    pub heard: Heard,
    pub changed: bool,
}

// What each of master, device and a third party sent in the first 1000 ticks: 0 where it is silent, and 256 more than the character that it sends.
#[derive(Clone, Copy)]
pub struct Log {
    pub master: [u16; 1000],
    pub device: [u16; 1000],
    pub other: [u16; 1000],
}

// The characters of a row of the log, from one tick to another.
fn put_characters(row: &[u16], from: usize, to: usize, out: &mut [u8], at: usize) -> usize {
    let mut place = at;
    for n in row.iter().take(to).skip(from) {
        place = put_spaced((*n % 256) as u8, out, place);
    }
    place
}

// The first tick of what ended in the tick before this one, or this tick if nothing did.
fn began(row: &[u16], tick: usize) -> usize {
    if row.len() < tick || row.get(tick).is_some_and(|n| 0 < *n) {
        return tick;
    }
    row[..tick]
        .iter()
        .rposition(|n| *n == 0)
        .map_or(0, |silent| silent + 1)
}

fn print_speech(
    rt: &impl Print,
    name: &[u8],
    row: &[u16],
    from: usize,
    to: usize,
    out: &mut [u8],
) -> io::Result<()>
    requires { from < to }
{
    let mut place = put_field(b"  ", from as u64, out, 0);
    place = put_field(b"-", (to - 1) as u64, out, place);
    place = put_bytes(name, out, place);
    place = put_characters(row, from, to, out, place);
    print_line(rt, out, place)
}

// A line for what a party sent without a pause until the tick before this.
fn show_speech(rt: &impl Print, name: &[u8], row: &[u16], tick: u16) -> io::Result<()> {
    let to = usize::from(tick);
    let from = began(row, to);
    if from < to {
        let mut out = [0u8; 4096];
        print_speech(rt, name, row, from, to, &mut out)?;
    }
    Ok(())
}

// What ended in the tick before this.
pub fn show_speeches(rt: &impl Print, tick: u16, log: &Log) -> io::Result<()> {
    show_speech(rt, b" master sends", &log.master, tick)?;
    show_speech(rt, b" device sends", &log.device, tick)?;
    show_speech(rt, b" other sends", &log.other, tick)
}

fn put_damage(kind: Damage, out: &mut [u8], at: usize) -> usize {
    match kind {
        Damage::Parity => put_bytes(b"parity", out, at),
        Damage::Overrun => put_bytes(b"overrun", out, at),
        Damage::Framing => put_bytes(b"framing", out, at),
    }
}

fn put_heard(heard: Heard, out: &mut [u8], at: usize) -> usize {
    let place = put_bytes(b" hears ", out, at);
    match heard {
        Heard::Silence => put_bytes(b"silence", out, place),
        Heard::Character(c) => {
            let behind = put_bytes(b"character", out, place);
            put_spaced(c, out, behind)
        }
        Heard::Damaged(c, kind) => {
            let behind = put_damage(kind, out, place);
            put_spaced(c, out, behind)
        }
    }
}

fn put_event(event: Event, out: &mut [u8], at: usize) -> usize {
    match event {
        Event::Nothing | Event::PassedOver => at,
        Event::Broken => put_bytes(b" broken", out, at),
        Event::Frame(_) => put_bytes(b" whole", out, at),
        Event::Damaged(_, _) => put_bytes(b" damaged", out, at),
    }
}

// Command and data of a frame.
fn put_frame(name: &[u8], w: Whole, bytes: &[u8; 255], out: &mut [u8], at: usize) -> usize {
    let mut place = put_field(name, u64::from(w.header.command), out, at);
    place = put_bytes(b" data", out, place);
    put_all_spaced(texts::front(bytes, usize::from(w.count)), out, place)
}

fn put_master_told(told: MasterTold, bytes: &[u8; 255], out: &mut [u8], at: usize) -> usize {
    match told {
        MasterTold::Nothing => at,
        MasterTold::Answered(w) => put_frame(b" answered ", w, bytes, out, at),
        MasterTold::GivenUp(attempts) => put_field(b" given up ", u64::from(attempts), out, at),
        MasterTold::BroadcastSent => put_bytes(b" broadcast sent", out, at),
    }
}

fn put_device_told(told: DeviceTold, bytes: &[u8; 255], out: &mut [u8], at: usize) -> usize {
    match told {
        DeviceTold::Nothing => at,
        DeviceTold::Request(w) => put_frame(b" request ", w, bytes, out, at),
        DeviceTold::Broadcast(w) => put_frame(b" broadcast ", w, bytes, out, at),
    }
}

fn put_refused(refused: u32, out: &mut [u8], at: usize) -> usize {
    if 0 < refused {
        put_field(b" refused ", u64::from(refused), out, at)
    } else {
        at
    }
}

fn event_shows(event: Event) -> bool
    ensures { result ≡ event_shows event }
{
    !matches!(event, Event::Nothing | Event::PassedOver)
}

fn tells(told: MasterTold) -> bool
    ensures { result ≡ tells_host told }
{
    !matches!(told, MasterTold::Nothing)
}

// Whether a party has a line in this tick. A device tells its host only of a frame that it found.
fn has_line(input: Reception, event: Event, refused: u32) -> bool
    ensures { result ≡ has_line input.changed event refused }
{
    input.changed || event_shows(event) || 0 < refused
}

// What a party hears, if the script changed it.
fn put_input(input: Reception, out: &mut [u8], at: usize) -> usize {
    if input.changed {
        put_heard(input.heard, out, at)
    } else {
        at
    }
}

// What a party does in a tick, but for what it tells.
#[derive(Clone, Copy)]
struct Line<'a> {
    tick: u16,
    name: &'a [u8],
    input: Reception,
    event: Event,
    refused: u32,
}

// What a party tells its host.
#[derive(Clone, Copy)]
enum Told {
    ByMaster(MasterTold),
    ByDevice(DeviceTold),
}

fn put_told(told: Told, bytes: &[u8; 255], out: &mut [u8], at: usize) -> usize {
    match told {
        Told::ByMaster(told) => put_master_told(told, bytes, out, at),
        Told::ByDevice(told) => put_device_told(told, bytes, out, at),
    }
}

fn print_party(rt: &impl Print, l: Line, told: Told, bytes: &[u8; 255]) -> io::Result<()> {
    let mut out = [0u8; 4096];
    let mut place = put_field(b"  ", u64::from(l.tick), &mut out, 0);
    place = put_bytes(l.name, &mut out, place);
    place = put_input(l.input, &mut out, place);
    place = put_event(l.event, &mut out, place);
    place = put_told(told, bytes, &mut out, place);
    place = put_refused(l.refused, &mut out, place);
    print_line(rt, &out, place)
}

// A line for the master, if it has one in this tick.
pub fn show_master(
    rt: &impl Print,
    tick: u16,
    input: Reception,
    t: MasterTicked,
    bytes: &[u8; 255],
) -> io::Result<()> {
    let refused = party::call_number(t.result);
    if has_line(input, t.event, refused) || tells(t.told) {
        let l = Line {
            tick,
            name: b" master",
            input,
            event: t.event,
            refused,
        };
        print_party(rt, l, Told::ByMaster(t.told), bytes)?;
    }
    Ok(())
}

// A line for the device, if it has one in this tick.
pub fn show_device(
    rt: &impl Print,
    tick: u16,
    input: Reception,
    t: DeviceTicked,
    bytes: &[u8; 255],
) -> io::Result<()> {
    let refused = party::call_number(t.result);
    if has_line(input, t.event, refused) {
        let l = Line {
            tick,
            name: b" device",
            input,
            event: t.event,
            refused,
        };
        print_party(rt, l, Told::ByDevice(t.told), bytes)?;
    }
    Ok(())
}
