// Two parties behind modem chips, each on a line of its own.
// A primary asks command 0 of polling address 0 in tick 0; the ACK comes with a wrong ninth bit in one data byte and a framing mark on the other. In tick 59 the host asks again, and is refused, since a damaged ACK is no answer and the message waits for its next attempt, whose ACK is the answer.
// A device of polling address 0 hears that request: the line carries it in ticks 1 to 10, so the host is told in tick 11. Its answer in tick 0 is refused, since no request is in hand; its answer in tick 12, T+2, is taken, and the ACK begins in that tick and ends in tick 23.
// Control bit 6 is set throughout. Printed are, for each tick in which the line carried something, the chip sends or the host calls: the registers after the tick's beginning, the status after the driver's reads and after its writes, what goes out with its ninth bit, what is told and what the call came to. The stored lines were worked out before the program ran: ticks and characters by document 01, the ninth bit, 1 where a character's ones are even, and the registers by document 02.
#![tactic(auto)]

use device_tick::DeviceCall;
use line::Profile;
use modem::{Carried, Chip, Mark};
use modem_party::Arrival;
use std::io;
use texts::{put_bytes, put_decimal, put_field, put_hexadecimal};
use turns::{CallResult, Device, DeviceTold, Master, MasterTold, Request, Wish};

// The STX of a primary, and the ACK that a device sends.
const STX: [u8; 10] = [0xFF, 0xFF, 0xFF, 0xFF, 0xFF, 0x02, 0x80, 0x00, 0x00, 0x82];

const ACK: [u8; 12] = [
    0xFF, 0xFF, 0xFF, 0xFF, 0xFF, 0x06, 0x80, 0x00, 0x02, 0x00, 0x00, 0x84,
];

// What the line carries in a tick of a frame that is sent from its first tick on.
fn carries(frame: &[u8], first: u8, tick: u8) -> Carried {
    if tick < first {
        return Carried::Silence;
    }
    match frame.get(usize::from(tick - first)) {
        Some(c) => Carried::Nine(*c, modem::ninth_bit(*c), Mark::Sound),
        None => Carried::Silence,
    }
}

// The request is sent in ticks 1 to 10.
fn request_at(tick: u8) -> Carried {
    carries(&STX, 1, tick)
}

// The answer is sent in ticks 44 to 55, with both data bytes damaged, and in ticks 100 to 111.
fn answer_at(tick: u8) -> Carried {
    match tick {
        53 => Carried::Nine(0x00, false, Mark::Sound),
        54 => Carried::Nine(0x00, true, Mark::Framing),
        0..=99 => carries(&ACK, 44, tick),
        _ => carries(&ACK, 100, tick),
    }
}

fn call_at(tick: u8) -> Option<Request> {
    match tick {
        0 | 59 => Some(Request {
            preamble: 5,
            revision: 7,
            long: false,
            address: 0,
            command: 0,
        }),
        _ => None,
    }
}

fn answers_at(tick: u8) -> DeviceCall {
    match tick {
        0 | 12 => DeviceCall::Answers(Wish::Same),
        _ => DeviceCall::Nothing,
    }
}

fn is_silence(carried: Carried) -> bool {
    matches!(carried, Carried::Silence)
}

fn is_shown(carried: Carried, sent: Carried, res: CallResult) -> bool {
    !is_silence(carried) || !is_silence(sent) || !matches!(res, CallResult::Nothing)
}

// What goes out, with its ninth bit.
fn put_sent(sent: Carried, out: &mut [u8], at: usize) -> usize {
    match sent {
        Carried::Silence => put_bytes(b"      -", out, at),
        Carried::Nine(c, ninth, _) => {
            let mut place = put_bytes(b"      ", out, at);
            place = put_hexadecimal(true, c, out, place);
            put_field(b" ", texts::bit(ninth), out, place)
        }
    }
}

fn told_by_master(told: MasterTold) -> &'static [u8] {
    match told {
        MasterTold::Nothing => b"",
        MasterTold::Answered(_) => b" answered",
        MasterTold::GivenUp(_) => b" given up",
        MasterTold::BroadcastSent => b" broadcast sent",
    }
}

fn told_by_device(told: DeviceTold) -> &'static [u8] {
    match told {
        DeviceTold::Nothing => b"",
        DeviceTold::Request(_) => b" request",
        DeviceTold::Broadcast(_) => b" broadcast",
    }
}

fn put_answer(res: CallResult, out: &mut [u8], at: usize) -> usize {
    match res {
        CallResult::Nothing => put_bytes(b"\n", out, at),
        CallResult::Taken => put_bytes(b" taken\n", out, at),
        CallResult::Refused(why) => {
            let place = put_field(b" refused ", u64::from(why), out, at);
            put_bytes(b"\n", out, place)
        }
    }
}

// A register, after some spaces.
fn put_register(spaces: &[u8], x: Chip, n: usize, out: &mut [u8], at: usize) -> usize {
    let place = put_bytes(spaces, out, at);
    put_hexadecimal(true, modem::look(x, n).value, out, place)
}

// A tick in three digits.
fn put_tick(tick: u8, out: &mut [u8]) -> usize {
    let mut place = put_decimal(u64::from(tick / 100), out, 0);
    place = put_decimal(u64::from(tick / 10 % 10), out, place);
    put_decimal(u64::from(tick % 10), out, place)
}

// Status, control, data and kind.
fn put_first(x: Chip, out: &mut [u8], at: usize) -> usize {
    let mut place = put_register(b"    ", x, 0, out, at);
    place = put_register(b"     ", x, 1, out, place);
    place = put_register(b"      ", x, 2, out, place);
    put_register(b"   ", x, 3, out, place)
}

// The tick count.
fn put_count(x: Chip, out: &mut [u8], at: usize) -> usize {
    let mut place = put_register(b"   ", x, 4, out, at);
    place = put_register(b" ", x, 5, out, place);
    place = put_register(b" ", x, 6, out, place);
    put_register(b" ", x, 7, out, place)
}

// The chip after the driver's writes for what is sent.
fn written(x: Chip, sent: Carried) -> Chip {
    match sent {
        Carried::Silence => modem::stay_silent(x),
        Carried::Nine(c, _, _) => modem::transmit(x, c),
    }
}

// The status after the driver's reads, and after its writes.
fn put_status(x: Chip, sent: Carried, out: &mut [u8], at: usize) -> usize {
    let h = modem::hear(x);
    let place = put_register(b"  ", h.chip, 0, out, at);
    put_register(b"   ", written(h.chip, sent), 0, out, place)
}

// A party's tick behind its chip: what arrived, what goes out, what is told and what the call came to.
#[derive(Clone, Copy)]
struct Shown {
    tick: u8,
    arrival: Arrival,
    sent: Carried,
    told: &'static [u8],
    result: CallResult,
}

fn show(rt: &impl Print, s: Shown) -> io::Result<()> {
    if !is_shown(s.arrival.carried, s.sent, s.result) {
        return Ok(());
    }
    let mut out = [0u8; 4096];
    let x = modem::arrive(s.arrival.chip, s.arrival.carried);
    let mut place = put_tick(s.tick, &mut out);
    place = put_first(x, &mut out, place);
    place = put_count(x, &mut out, place);
    place = put_status(x, s.sent, &mut out, place);
    place = put_sent(s.sent, &mut out, place);
    place = put_bytes(s.told, &mut out, place);
    place = put_answer(s.result, &mut out, place);
    rt.write_all(texts::front(&out, place))
}

// What the line carries: what the chip sends, or else the other party's character.
fn joined(sent: Carried, others: Carried) -> Carried {
    match sent {
        Carried::Silence => others,
        Carried::Nine(..) => sent,
    }
}

fn run_master(rt: &impl Print, start: Master) -> io::Result<()> {
    let mut frame = [0u8; 284];
    let mut bytes = [0u8; 255];
    let mut chip = modem::put(modem::fresh(), 1, 64);
    let mut carried = Carried::Silence;
    let mut m = start;
    for tick in 0..113 {
        let arrival = Arrival { chip, carried };
        let b = modem_party::master_tick(
            255,
            arrival,
            m,
            call_at(tick),
            &[],
            &mut frame,
            &mut bytes,
        );
        let shown = Shown {
            tick,
            arrival,
            sent: b.ended.carried,
            told: told_by_master(b.ticked.told),
            result: b.ticked.result,
        };
        show(rt, shown)?;
        carried = joined(b.ended.carried, answer_at(tick));
        chip = b.ended.chip;
        m = b.ticked.master;
    }
    Ok(())
}

fn run_device(rt: &impl Print, start: Device) -> io::Result<()> {
    let mut contents = [0u8; 255];
    let mut frame = [0u8; 284];
    let mut bytes = [0u8; 255];
    let mut chip = modem::put(modem::fresh(), 1, 64);
    let mut carried = Carried::Silence;
    let mut d = start;
    for tick in 0..26 {
        let arrival = Arrival { chip, carried };
        let b = modem_party::device_tick(
            255,
            arrival,
            d,
            answers_at(tick),
            &[0, 0],
            &mut contents,
            &mut frame,
            &mut bytes,
        );
        let shown = Shown {
            tick,
            arrival,
            sent: b.ended.carried,
            told: told_by_device(b.ticked.told),
            result: b.ticked.result,
        };
        show(rt, shown)?;
        carried = joined(b.ended.carried, request_at(tick));
        chip = b.ended.chip;
        d = b.ticked.device;
    }
    Ok(())
}

fn print_head(rt: &impl Print, party: &[u8]) -> io::Result<()> {
    rt.write_all(party)?;
    rt.write_all(b"tick   status control data kind count        read written sent\n")
}

fn show_primary(rt: &impl Print) -> io::Result<()> {
    let Ok(m) = master::start(Profile::fsk(), true, 3) else {
        return Ok(());
    };
    print_head(rt, b"primary\n")?;
    run_master(rt, m)
}

fn show_device(rt: &impl Print) -> io::Result<()> {
    let Ok(d) = device::start(Profile::fsk(), 5, 0, 2) else {
        return Ok(());
    };
    print_head(rt, b"device\n")?;
    run_device(rt, d)
}

fn main(rt: HostRuntime) -> io::Result<()> {
    show_primary(&rt)?;
    show_device(&rt)
}
