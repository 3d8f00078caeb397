// Runs a master and a device of the infrared port over a port that a script damages. Prints each wake-up and each frame that is sent, with its first and last tick, each change of how the device listens, and each tick in which a party hears what the script changed, finds a frame or a broken one, tells its host something or refuses its call. Characters that are passed over are not printed.
//
// A line of the input with a colon after five digits is a scene: its number of ticks, and its orders. Any other line is printed as it is. An order is its tick in five digits, a letter for the party it is for, a letter for what is done, a number of two hexadecimal digits, and a semicolon:
//
//     mr mu mt  the master's host requests command 0 of that polling address, or command 3 or 11 of that unique address
//     da dn df  the device's host answers with that many zero bytes, with burst as it is, on or off
//     M.. D..   the master or the device hears what it would hear damaged by parity (p), overrun (o) or framing (f), with the bits of the number changed; silence (s); or the character of the number (c)
//     oc        a third party sends the character of the number
#![tactic(auto)]

mod show;

use line::{Damage, Event, Heard};
use port::Ear;
use port_device::PortDeviceTicked;
use port_master::PortMasterTicked;
use show::{Reception, Speech};
use std::io;
use turns::{CallResult, DeviceTold, MasterTold, Request, Sent, Wish};

// An order of a script: a letter for what is done, and its number.
#[derive(Clone, Copy)]
struct Order {
    what: u8,
    number: u8,
}

// A party after a tick, the buffer of its frame, the data that it heard, what it hears in the next tick, and what it is sending.
#[derive(Drop)]
struct Party<T> {
    ticked: T,
    frame: [u8; 284],
    bytes: [u8; 255],
    hears: Reception,
    speech: Option<Speech>,
}

// Both parties.
#[derive(Drop)]
struct Both {
    m: Party<PortMasterTicked>,
    d: Party<PortDeviceTicked>,
}

// The number of decimal digits.
fn number_of(digits: &[u8]) -> u32 {
    digits.iter().fold(0u32, |n, digit| {
        n.saturating_mul(10).saturating_add(u32::from(digit % 16))
    })
}

// The order of this tick for this party, if there is one; one whose letter is a zero byte is none.
fn look(script: &[u8], tick: u32, whom: u8) -> Option<Order> {
    for order in script.chunks_exact(10) {
        if let [digits @ .., party, what, high, low, _] = order {
            if *party == whom && number_of(digits) == tick {
                let order = Order {
                    what: *what,
                    number: texts::byte_of(*high, *low),
                };
                return Some(order).filter(|o| o.what != 0);
            }
        }
    }
    None
}

fn character_of(h: Heard) -> u8 {
    match h {
        Heard::Silence => 0,
        Heard::Character(c) | Heard::Damaged(c, _) => c,
    }
}

// What is heard after an order has changed it.
fn altered(h: Heard, o: Order) -> Heard {
    let damaged = character_of(h) ^ o.number;
    match o.what {
        b'p' => Heard::Damaged(damaged, Damage::Parity),
        b'o' => Heard::Damaged(damaged, Damage::Overrun),
        b'f' => Heard::Damaged(damaged, Damage::Framing),
        b's' => Heard::Silence,
        b'c' => Heard::Character(o.number),
        _ => h,
    }
}

// What the port carries where two may send.
fn carried(a: Sent, b: Sent) -> Heard {
    match (a, b) {
        (Sent::Silent, Sent::Silent) => Heard::Silence,
        (Sent::Silent, Sent::Character(c)) | (Sent::Character(c), Sent::Silent) => {
            Heard::Character(c)
        }
        (Sent::Character(_), Sent::Character(_)) => Heard::Damaged(0, Damage::Framing),
    }
}

// What a party hears of this tick in the next one.
fn hears(script: &[u8], tick: u32, whom: u8, a: Sent, b: Sent) -> Reception {
    let order = look(script, tick, whom);
    let heard = carried(a, b);
    Reception {
        heard: order.map_or(heard, |o| altered(heard, o)),
        changed: order.is_some(),
    }
}

// What a third party sends.
fn other_sends(script: &[u8], tick: u32) -> Sent {
    look(script, tick, b'o').map_or(Sent::Silent, |o| Sent::Character(o.number))
}

fn master_call(order: Option<Order>) -> Option<Request> {
    let Order { what, number } = order?;
    let (long, command) = match what {
        b'r' => (false, 0),
        b'u' => (true, 3),
        b't' => (true, 11),
        _ => return None,
    };
    Some(Request {
        preamble: 5,
        revision: 7,
        long,
        address: u64::from(number),
        command,
    })
}

fn master_ticks(m: &mut Party<PortMasterTicked>, script: &[u8], tick: u32) {
    let call = master_call(look(script, tick, b'm'));
    m.ticked = port_master::tick(
        255,
        m.ticked.master,
        m.hears.heard,
        call,
        b"",
        &mut m.frame,
        &mut m.bytes,
    );
}

fn device_call(order: Option<Order>) -> Option<Wish> {
    match order?.what {
        b'a' => Some(Wish::Same),
        b'n' => Some(Wish::On),
        b'f' => Some(Wish::Off),
        _ => None,
    }
}

fn device_ticks(d: &mut Party<PortDeviceTicked>, script: &[u8], tick: u32) {
    let order = look(script, tick, b'd');
    let count = order.map_or(0, |o| usize::from(o.number));
    let zeros = [0u8; 255];
    d.ticked = port_device::tick(
        255,
        d.ticked.device,
        d.hears.heard,
        device_call(order),
        texts::front(&zeros, count),
        &mut d.frame,
        &mut d.bytes,
    );
}

fn show_master(rt: &impl Print, tick: u32, m: &Party<PortMasterTicked>) -> io::Result<()> {
    let t = m.ticked;
    show::show_party(
        rt, tick, b" master", m.hears, t.event, t.told, t.result, &m.bytes,
    )
}

fn show_device(
    rt: &impl Print,
    tick: u32,
    before: Ear,
    d: &Party<PortDeviceTicked>,
) -> io::Result<()> {
    let t = d.ticked;
    show::show_party(
        rt, tick, b" device", d.hears, t.event, t.told, t.result, &d.bytes,
    )?;
    show::show_ear(rt, tick, before, t.device.ear)
}

// A tick of both, and its lines.
fn tick_both(rt: &impl Print, b: &mut Both, tick: u32, script: &[u8]) -> io::Result<()> {
    let before = b.d.ticked.device.ear;
    master_ticks(&mut b.m, script, tick);
    device_ticks(&mut b.d, script, tick);
    let m = b.m.ticked;
    let d = b.d.ticked;
    b.m.speech = show::master_speech(rt, tick, m.sent, m.master.wake, b.m.speech, &b.m.frame)?;
    b.d.speech = show::device_speech(rt, tick, d.sent, b.d.speech, &b.d.frame)?;
    show_master(rt, tick, &b.m)?;
    show_device(rt, tick, before, &b.d)?;
    let other = other_sends(script, tick);
    b.m.hears = hears(script, tick, b'M', d.sent, other);
    b.d.hears = hears(script, tick, b'D', m.sent, other);
    Ok(())
}

// A party before its first tick.
fn before_first<T>(ticked: T) -> Party<T> {
    Party {
        ticked,
        frame: [0; 284],
        bytes: [0; 255],
        hears: Reception {
            heard: Heard::Silence,
            changed: false,
        },
        speech: None,
    }
}

// A master with R 3, and a device with polling address 0 and unique address 2, for so many ticks.
fn scene(rt: &impl Print, ticks: u32, script: &[u8]) -> io::Result<()> {
    let Ok(master) = port_master::start(true, 3) else {
        return Ok(());
    };
    let Ok(device) = port_device::start(5, 0, 2) else {
        return Ok(());
    };
    let mut both = Both {
        m: before_first(PortMasterTicked {
            master,
            sent: Sent::Silent,
            told: MasterTold::Nothing,
            event: Event::Nothing,
            result: CallResult::Nothing,
        }),
        d: before_first(PortDeviceTicked {
            device,
            sent: Sent::Silent,
            told: DeviceTold::Nothing,
            event: Event::Nothing,
            result: CallResult::Nothing,
        }),
    };
    for tick in 0..ticks {
        tick_both(rt, &mut both, tick, script)?;
    }
    Ok(())
}

fn line(rt: &impl Print, words: &[u8]) -> io::Result<()> {
    if 6 <= words.len() && words[5] == b':' {
        scene(rt, number_of(&words[..5]), &words[6..])
    } else {
        rt.write_all(words)
    }
}

// Runs or prints each line; what stands behind the last end of a line is none.
fn lines(rt: &impl Print, words: &[u8]) -> io::Result<()> {
    for each in words.split_inclusive(|b| *b == b'\n') {
        if let [.., b'\n'] = each {
            line(rt, each)?;
        }
    }
    Ok(())
}

fn main(rt: HostRuntime) -> io::Result<()> {
    let mut input = [0u8; 65536];
    let count = program_files::read_full(&mut rt.reader(), &mut input);
    lines(&rt, &input[..count])
}
