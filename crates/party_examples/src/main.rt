// Runs a master and a device over a line that a script damages. Prints each frame that is sent, with its first and last tick, and each tick in which a party hears what the script changed, finds a frame or a broken one, tells its host something or refuses its call. Characters that are passed over are not printed.
//
// A line of the input with a colon after three digits is a scene: its number of ticks, and its orders. Any other line is printed as it is. An order is its tick in three digits, a letter for the party it is for, a letter for what is done, a number of two hexadecimal digits, and a semicolon:
//
//     mr mu mt  the master's host requests command 0 of that polling address, or command 3 or 11 of that unique address
//     da dn df  the device's host answers with that many zero bytes, with burst as it is, on or off
//     dc        the device's host gives burst content: command 3 with that many zero bytes
//     M.. D..   the master or the device hears what it would hear damaged by parity (p), overrun (o) or framing (f), with the bits of the number changed; silence (s); or the character of the number (c)
//     oc        a third party sends the character of the number
#![tactic(auto, using(base::proofs::Choices::choices))]

mod show;

use device_tick::{DeviceCall, DeviceTicked};
use line::{Damage, Event, Heard, Profile};
use master::MasterTicked;
use show::{Log, Reception};
use std::io;
use turns::{CallResult, Device, DeviceTold, Master, MasterTold, Request, Sent, Wish};

// An order of a script: a letter for what is done, and its number.
#[derive(Clone, Copy)]
struct Order {
    what: u8,
    number: u8,
}

// A master after a tick, the buffer of its frame, and the data that it heard.
#[derive(Clone, Copy)]
struct MasterSide {
    ticked: MasterTicked,
    frame: [u8; 284],
    bytes: [u8; 255],
}

// A device, likewise, and its burst content.
#[derive(Clone, Copy)]
struct DeviceSide {
    ticked: DeviceTicked,
    contents: [u8; 255],
    frame: [u8; 284],
    bytes: [u8; 255],
}

// Both parties, what each hears in the next tick, and the log of what was sent.
#[derive(Clone, Copy)]
struct Both {
    m: MasterSide,
    d: DeviceSide,
    to_m: Reception,
    to_d: Reception,
    log: Log,
}

fn three_digits(a: u8, b: u8, c: u8) -> u16 {
    u16::from(a % 16) * 100 + u16::from(b % 16) * 10 + u16::from(c % 16)
}

// The order of this tick for this party, if there is one.
fn look(script: &[u8], tick: u16, whom: u8) -> Option<Order> {
    for order in script.chunks_exact(8) {
        let [a, b, c, party, what, high, low, _] = order else {
            return None;
        };
        if *party == whom && three_digits(*a, *b, *c) == tick {
            let number = texts::byte_of(*high, *low);
            // a letter 0 is no order
            return Some(Order {
                what: *what,
                number,
            })
            .filter(|o| o.what != 0);
        }
    }
    None
}

fn character_of(h: Heard) -> u8 {
    match h {
        Heard::Silence => 0,
        Heard::Character(c) | Heard::Damaged(c, _) => c,
    }
}

// What is heard after an order has changed it.
fn altered(h: Heard, o: Order) -> Heard {
    let damaged = character_of(h) ^ o.number;
    match o.what {
        b'p' => Heard::Damaged(damaged, Damage::Parity),
        b'o' => Heard::Damaged(damaged, Damage::Overrun),
        b'f' => Heard::Damaged(damaged, Damage::Framing),
        b's' => Heard::Silence,
        b'c' => Heard::Character(o.number),
        _ => h,
    }
}

// What the line carries where two may send.
fn carried(a: Sent, b: Sent) -> Heard {
    match (a, b) {
        (Sent::Silent, Sent::Silent) => Heard::Silence,
        (Sent::Character(c), Sent::Silent) | (Sent::Silent, Sent::Character(c)) => {
            Heard::Character(c)
        }
        (Sent::Character(_), Sent::Character(_)) => Heard::Damaged(0, Damage::Framing),
    }
}

// What a party hears of this tick in the next one.
fn hears(script: &[u8], tick: u16, whom: u8, a: Sent, b: Sent) -> Reception {
    let heard = carried(a, b);
    match look(script, tick, whom) {
        Some(order) => Reception {
            heard: altered(heard, order),
            changed: true,
        },
        None => Reception {
            heard,
            changed: false,
        },
    }
}

// What a third party sends.
fn other_sends(script: &[u8], tick: u16) -> Sent {
    match look(script, tick, b'o') {
        Some(order) => Sent::Character(order.number),
        None => Sent::Silent,
    }
}

fn request(long: bool, address: u8, command: u8) -> Request {
    Request {
        preamble: 5,
        revision: 7,
        long,
        address: u64::from(address),
        command,
    }
}

fn master_call(order: Option<Order>) -> Option<Request> {
    let o = order?;
    match o.what {
        b'r' => Some(request(false, o.number, 0)),
        b'u' => Some(request(true, o.number, 3)),
        b't' => Some(request(true, o.number, 11)),
        _ => None,
    }
}

// A request of command 0 has one data byte, one of command 11 a tag of six, one of command 3 none.
fn master_data(order: Option<Order>) -> &'static [u8] {
    match order {
        Some(Order { what: b'r', .. }) => &[5],
        Some(Order { what: b't', .. }) => &[5; 6],
        _ => &[],
    }
}

fn master_ticks(side: &mut MasterSide, heard: Heard, script: &[u8], tick: u16) {
    let order = look(script, tick, b'm');
    side.ticked = master::tick(
        255,
        side.ticked.master,
        heard,
        master_call(order),
        master_data(order),
        &mut side.frame,
        &mut side.bytes,
    );
}

fn device_call(order: Option<Order>) -> DeviceCall {
    let Some(o) = order else {
        return DeviceCall::Nothing;
    };
    match o.what {
        b'a' => DeviceCall::Answers(Wish::Same),
        b'n' => DeviceCall::Answers(Wish::On),
        b'f' => DeviceCall::Answers(Wish::Off),
        b'c' => DeviceCall::Content(3),
        _ => DeviceCall::Nothing,
    }
}

fn device_ticks(side: &mut DeviceSide, heard: Heard, script: &[u8], tick: u16) {
    let order = look(script, tick, b'd');
    let zeros = [0u8; 255];
    let count = order.map_or(0, |o| o.number);
    side.ticked = device_tick::tick(
        255,
        side.ticked.device,
        heard,
        device_call(order),
        texts::front(&zeros, usize::from(count)),
        &mut side.contents,
        &mut side.frame,
        &mut side.bytes,
    );
}

// Notes what the three send in this tick.
fn note(log: &mut Log, by_m: Sent, by_d: Sent, by_o: Sent, tick: u16) {
    let at = usize::from(tick);
    if at < 1000 {
        log.master[at] = party::sent_number(by_m);
        log.device[at] = party::sent_number(by_d);
        log.other[at] = party::sent_number(by_o);
    }
}

fn tick_both(rt: &impl Print, b: &mut Both, tick: u16, script: &[u8]) -> io::Result<()> {
    let to_m = b.to_m;
    let to_d = b.to_d;
    master_ticks(&mut b.m, to_m.heard, script, tick);
    device_ticks(&mut b.d, to_d.heard, script, tick);
    let by_m = b.m.ticked.sent;
    let by_d = b.d.ticked.sent;
    let by_o = other_sends(script, tick);
    b.to_m = hears(script, tick, b'M', by_d, by_o);
    b.to_d = hears(script, tick, b'D', by_m, by_o);
    note(&mut b.log, by_m, by_d, by_o, tick);
    show::show_speeches(rt, tick, &b.log)?;
    show::show_master(rt, tick, to_m, b.m.ticked, &b.m.bytes)?;
    show::show_device(rt, tick, to_d, b.d.ticked, &b.d.bytes)
}

// Runs both for so many ticks.
fn run(rt: &impl Print, start: Both, ticks: u16, script: &[u8]) -> io::Result<()> {
    let mut b = start;
    for tick in 0..ticks {
        tick_both(rt, &mut b, tick, script)?;
    }
    Ok(())
}

fn master_side(m: Master) -> MasterSide {
    MasterSide {
        ticked: MasterTicked {
            master: m,
            sent: Sent::Silent,
            told: MasterTold::Nothing,
            event: Event::Nothing,
            result: CallResult::Nothing,
        },
        frame: [0; 284],
        bytes: [0; 255],
    }
}

fn device_side(d: Device) -> DeviceSide {
    DeviceSide {
        ticked: DeviceTicked {
            device: d,
            sent: Sent::Silent,
            told: DeviceTold::Nothing,
            event: Event::Nothing,
            result: CallResult::Nothing,
        },
        contents: [0; 255],
        frame: [0; 284],
        bytes: [0; 255],
    }
}

fn both_of(m: Master, d: Device) -> Both {
    let silence = Reception {
        heard: Heard::Silence,
        changed: false,
    };
    Both {
        m: master_side(m),
        d: device_side(d),
        to_m: silence,
        to_d: silence,
        log: Log {
            master: [0; 1000],
            device: [0; 1000],
            other: [0; 1000],
        },
    }
}

// A primary, and a device with polling address 0 and unique address 2.
fn scene(rt: &impl Print, ticks: u16, script: &[u8]) -> io::Result<()> {
    let profile = Profile::fsk();
    let Ok(m) = master::start(profile, true, 3) else {
        return Ok(());
    };
    let Ok(d) = device::start(profile, 5, 0, 2) else {
        return Ok(());
    };
    run(rt, both_of(m, d), ticks, script)
}

fn line(rt: &impl Print, words: &[u8]) -> io::Result<()> {
    match words {
        [a, b, c, b':', script @ ..] => scene(rt, three_digits(*a, *b, *c), script),
        _ => rt.write_all(words),
    }
}

// The lines of a text; what stands behind the last line's end is passed over.
fn lines(rt: &impl Print, words: &[u8]) -> io::Result<()> {
    let mut start = 0;
    for (i, c) in words.iter().enumerate() {
        if *c == b'\n' {
            line(rt, &words[start..=i])?;
            start = i + 1;
        }
    }
    Ok(())
}

fn main(rt: HostRuntime) -> io::Result<()> {
    let mut input = [0u8; 65536];
    let count = program_files::read_full(&mut rt.reader(), &mut input);
    lines(&rt, &input[..count])
}
