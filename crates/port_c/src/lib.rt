// The infrared port's master and devices for programs in C: their states as words that the caller lends (those of a master or a device of the pair, and beside them the port's), their starts and their ticks.
#![tactic(auto, using(base::proofs::Choices::choices))]

ghost use Rattle.std.specs.Prelude.{◌≡◌};
ghost use Rattle.base.specs.Refusal.{accepted};
ghost use Rattle.line.specs.Heard.{heard_of};
ghost use Rattle.master_c.specs.Tick.{request_of};
ghost use Rattle.port.specs.Device.{port_device_starts};
ghost use Rattle.port.specs.Master.{port_master_starts};
ghost use Rattle.port_c.specs.Words.{wake_word, wake_of, master_words, unpacked_master, heard_kind, heard_character, ear_number, ear_first, ear_second, ear_by, device_words, unpacked_device};
ghost use Rattle.port_c.specs.Fits.{WakeFits, PortMasterFits, HeardFits, EarFits, PortDeviceFits};
ghost use Rattle.port_c.specs.Tick.{PortMasterTicks, call_by, PortDeviceTicks};
ghost use Rattle.port_c.specs.Start.{PortMasterLeft, PortDeviceLeft};

use line::{Damage, Heard};
use port::{Ear, PortDevice, PortMaster};
use turns::{Request, Wish};

// The next five do nothing. The contract of each says that the numbers of a value are within their types, which the prover knows of a parameter; `port_master_kept` and `port_device_kept` need it.
fn wake_fits(wake: Option<u16>)
    ensures { WakeFits wake }
{}

fn port_master_fits(x: PortMaster)
    ensures { PortMasterFits x }
{
    master_c::master_fits(x.master);
    wake_fits(x.wake);
}

fn heard_fits(heard: Heard)
    ensures { HeardFits heard }
{}

fn ear_fits(ear: Ear)
    ensures { EarFits ear }
{}

fn port_device_fits(y: PortDevice)
    ensures { PortDeviceFits y }
{
    device_c::device_fits(y.device);
    ear_fits(y.ear);
}

fn wake_word(wake: Option<u16>) -> u64
    ensures { result ≡ wake_word wake }
{
    match wake {
        None => 0,
        Some(n) => u64::from(n) + 1,
    }
}

fn wake_of(word: u64) -> Option<u16>
    ensures { result ≡ wake_of word }
{
    word.checked_sub(1).map(|n| (n % 0x10000) as u16)
}

// The master that some words stand for.
fn unpack_master(state: &[u64; 40], port: &[u64; 2]) -> PortMaster
    ensures { result ≡ unpacked_master state.now port.now }
{
    PortMaster {
        master: master_c::unpack(state),
        since: state_words::u16_at(port, 0),
        wake: wake_of(state_words::word_at(port, 1)),
    }
}

// The two words of the port's master.
fn master_words(x: PortMaster) -> [u64; 2]
    ensures { result ≡ master_words x }
{
    [u64::from(x.since), wake_word(x.wake)]
}

// A tick of the master that the words stand for.
fn tick_master(
    state: &mut [u64; 40],
    port: &mut [u64; 2],
    frame: &mut [u8; 284],
    bytes: &mut [u8; 255],
    heard: Heard,
    call: Option<Request>,
    put: &[u8],
    results: &mut [u64; 17],
) -> u32
    ensures { PortMasterTicks state port frame bytes heard call put.now results result }
{
    let x = unpack_master(state, port);
    let limit = master_c::limit_at(state);
    let t = port_master::tick(limit, x, heard, call, put, frame, bytes);
    port_master_fits(t.master);
    master_c::limit_fits(limit);
    master_c::pack(state, limit, t.master.master);
    *port = master_words(t.master);
    *results = state_words::tick_numbers(
        party::sent_number(t.sent) as u64,
        master_c::told_number(t.told),
        master_c::told_attempts(t.told),
        t.event,
    );
    party::call_number(t.result)
}

// A tick of the port's master; returns 0, or the number of the request's refusal. These parameters, and those of the next three, are the C interface.
#[unsafe(no_mangle)]
pub extern "C" fn nengapiko_port_master_tick(
    state: &mut [u64; 40],
    port: &mut [u64; 2],
    frame: &mut [u8; 284],
    bytes: &mut [u8; 255],
    kind: u8,
    character: u8,
    requests: bool,
    preamble: usize,
    revision: u8,
    long: bool,
    address: u64,
    command: u8,
    put: &[u8],
    results: &mut [u64; 17],
) -> u32
    ensures { PortMasterTicks state port frame bytes (heard_of kind character) (request_of requests preamble revision long address command)
        put.now results result }
{
    let heard = line::heard_of(kind, character);
    let call = master_c::request_of(requests, preamble, revision, long, address, command);
    tick_master(state, port, frame, bytes, heard, call, put, results)
}

// A fresh master, where its data limit is from 2 to 255; else refusal 9.
fn master_left(limit: usize, x: PortMaster, state: &mut [u64; 40], port: &mut [u64; 2]) -> u32
    ensures { PortMasterLeft limit (accepted x) state port result }
{
    match state_start_c::data_limit(limit) {
        Ok(limit) => {
            port_master_fits(x);
            master_c::pack(state, limit, x.master);
            *port = master_words(x);
            0
        }
        Err(why) => why.number(),
    }
}

// A fresh master with a data limit; or refusal 2 or 9, and the words as they were.
#[unsafe(no_mangle)]
pub extern "C" fn nengapiko_port_master_start(
    primary: bool,
    retries: u8,
    limit: usize,
    state: &mut [u64; 40],
    port: &mut [u64; 2],
) -> u32
    ensures { PortMasterLeft limit (port_master_starts primary retries) state port result }
{
    match port_master::start(primary, retries) {
        Ok(x) => master_left(limit, x, state, port),
        Err(why) => why.number(),
    }
}

fn heard_kind(heard: Heard) -> u64
    ensures { result ≡ heard_kind heard }
{
    match heard {
        Heard::Silence => 0,
        Heard::Character(_) => 1,
        Heard::Damaged(_, Damage::Parity) => 2,
        Heard::Damaged(_, Damage::Overrun) => 3,
        Heard::Damaged(_, Damage::Framing) => 4,
    }
}

fn heard_character(heard: Heard) -> u64
    ensures { result ≡ heard_character heard }
{
    match heard {
        Heard::Silence => 0,
        Heard::Character(c) | Heard::Damaged(c, _) => u64::from(c),
    }
}

fn ear_number(ear: Ear) -> u64
    ensures { result ≡ ear_number ear }
{
    match ear {
        Ear::Awake => 0,
        Ear::PassesOver(false) => 1,
        Ear::PassesOver(true) => 2,
        Ear::Dozes(_, _) => 3,
    }
}

// What a dozing device heard two ticks before, and in the tick before.
fn ear_heard(ear: Ear) -> (Heard, Heard)
    ensures { result ≡ (ear_first ear, ear_second ear) }
{
    match ear {
        Ear::Dozes(a, b) => (a, b),
        _ => (Heard::Silence, Heard::Silence),
    }
}

fn ear_by(number: u64, a: Heard, b: Heard) -> Ear
    ensures { result ≡ ear_by number a b }
{
    match number {
        1 => Ear::PassesOver(false),
        2 => Ear::PassesOver(true),
        3 => Ear::Dozes(a, b),
        _ => Ear::Awake,
    }
}

// The device that some words stand for.
fn unpack_device(state: &[u64; 41], port: &[u64; 6]) -> PortDevice
    ensures { result ≡ unpacked_device state.now port.now }
{
    let a = line::heard_of(state_words::u8_at(port, 1), state_words::u8_at(port, 2));
    let b = line::heard_of(state_words::u8_at(port, 3), state_words::u8_at(port, 4));
    PortDevice {
        device: device_c::unpack(state),
        ear: ear_by(state_words::word_at(port, 0), a, b),
        quiet: state_words::u16_at(port, 5),
    }
}

// The six words of a device of the port.
fn device_words(y: PortDevice) -> [u64; 6]
    ensures { result ≡ device_words y }
{
    let (a, b) = ear_heard(y.ear);
    [
        ear_number(y.ear),
        heard_kind(a),
        heard_character(a),
        heard_kind(b),
        heard_character(b),
        u64::from(y.quiet),
    ]
}

// The host's call by its number.
fn call_by(number: u8) -> Option<Wish>
    ensures { result ≡ call_by number }
{
    match number {
        1 => Some(Wish::Same),
        2 => Some(Wish::On),
        3 => Some(Wish::Off),
        _ => None,
    }
}

// A tick of the device that the words stand for.
fn tick_device(
    state: &mut [u64; 41],
    port: &mut [u64; 6],
    frame: &mut [u8; 284],
    bytes: &mut [u8; 255],
    heard: Heard,
    call: Option<Wish>,
    put: &[u8],
    results: &mut [u64; 17],
) -> u32
    ensures { PortDeviceTicks state port frame bytes heard call put.now results result }
{
    let y = unpack_device(state, port);
    let limit = device_c::limit_at(state);
    let t = port_device::tick(limit, y, heard, call, put, frame, bytes);
    port_device_fits(t.device);
    device_c::limit_fits(limit);
    device_c::pack(state, limit, t.device.device);
    *port = device_words(t.device);
    *results = state_words::tick_numbers(
        party::sent_number(t.sent) as u64,
        device_c::told_number(t.told),
        0,
        t.event,
    );
    party::call_number(t.result)
}

// A tick of a device of the port; returns 0, or the number with which its host's answer is refused.
#[unsafe(no_mangle)]
pub extern "C" fn nengapiko_port_device_tick(
    state: &mut [u64; 41],
    port: &mut [u64; 6],
    frame: &mut [u8; 284],
    bytes: &mut [u8; 255],
    kind: u8,
    character: u8,
    call: u8,
    put: &[u8],
    results: &mut [u64; 17],
) -> u32
    ensures { PortDeviceTicks state port frame bytes (heard_of kind character) (call_by call) put.now results result }
{
    let heard = line::heard_of(kind, character);
    tick_device(
        state,
        port,
        frame,
        bytes,
        heard,
        call_by(call),
        put,
        results,
    )
}

// A fresh device, where its data limit is from 2 to 255; else refusal 9. It and `tick_device` are no generics with the master's, since each step is a function over words of another length.
fn device_left(limit: usize, y: PortDevice, state: &mut [u64; 41], port: &mut [u64; 6]) -> u32
    ensures { PortDeviceLeft limit (accepted y) state port result }
{
    match state_start_c::data_limit(limit) {
        Ok(limit) => {
            port_device_fits(y);
            device_c::pack(state, limit, y.device);
            *port = device_words(y);
            0
        }
        Err(why) => why.number(),
    }
}

// A fresh device with a data limit; or refusal 3, 4 or 9, and the words as they were.
#[unsafe(no_mangle)]
pub extern "C" fn nengapiko_port_device_start(
    preamble: usize,
    polling: u8,
    unique: u64,
    limit: usize,
    state: &mut [u64; 41],
    port: &mut [u64; 6],
) -> u32
    ensures { PortDeviceLeft limit (port_device_starts preamble polling unique) state port result }
{
    match port_device::start(preamble, polling, unique) {
        Ok(y) => device_left(limit, y, state, port),
        Err(why) => why.number(),
    }
}
