// What the program `capture` writes of a recording, piece by piece: a pcap file with a packet for each whole frame.
#![tactic(auto, using(base::proofs::Choices::choices))]

ghost use Rattle.std.specs.Prelude.{◌≡◌, ◌+◌, ◌-◌, ◌*◌, ◌/◌, ◌%◌, ◌≤◌, length};
ghost use Rattle.texts.specs.Put.{PutIs};
ghost use Rattle.recording.specs.Form.{ticks_of};
ghost use Rattle.recording_capture.specs.Packet.{big16, big32, file_header, seconds_of, microseconds_of, record_header, master_address, device_address, source_of, target_of, ip_front, sum_of, folded, checksum_of, ip_ends, udp_header, message_type, hart_header, packet, next_number};
ghost use Rattle.recording_capture.specs.Capture.{heard_text, is_inside, held_behind, packet_by, number_after, progress_behind, start_of};
ghost use Rattle.recording_capture.specs.Promises.{TickIs, PacketsAre};

use frame::Header;
use line::{Event, Heard, Place, Receiver, Taken};
use texts::{put_byte, put_bytes};

// The profile whose ticks are told as times.
#[derive(Clone, Copy)]
pub enum Clock {
    Fsk,
    C8psk,
}

// What is kept from piece to piece, beside data and bytes of the frame being heard: the tick reader, the clock, the tick and the packet's number that come next, and how many bytes of the frame there are, from its delimiter on.
#[derive(Clone, Copy)]
pub struct Progress {
    pub receiver: Receiver,
    pub clock: Clock,
    pub tick: u64,
    pub number: u16,
    pub held: usize,
}

// What is kept after some ticks, and the place after their packets in the output.
#[derive(Clone, Copy)]
pub struct Captured {
    pub progress: Progress,
    pub at: usize,
}

// Before the first tick.
#[tactic(auto, using(crate::proofs::Capturing::started))]
pub fn start(clock: Clock) -> Progress
    ensures { result ≡ start_of clock }
{
    Progress {
        receiver: line_reader::passing_reader(),
        clock,
        tick: 0,
        number: 0,
        held: 0,
    }
}

// The file's header.
pub fn put_file_header(out: &mut [u8], at: usize) -> usize
    ensures { PutIs file_header out.old at result out.new }
{
    put_bytes(
        b"\xA1\xB2\xC3\xD4\x00\x02\x00\x04\x00\x00\x00\x00\x00\x00\x00\x00\x00\x00\xFF\xFF\x00\x00\x00\x65",
        out,
        at,
    )
}

// A number of two bytes, most significant first, modulo 65,536: so it takes the wide numbers of the headers as they are.
fn put_two(n: u64, out: &mut [u8], at: usize) -> usize
    ensures { PutIs (big16 n) out.old at result out.new }
{
    let at = put_byte((n / 256 % 256) as u8, out, at);
    put_byte((n % 256) as u8, out, at)
}

// A number of four bytes.
fn put_four(n: u64, out: &mut [u8], at: usize) -> usize
    ensures { PutIs (big32 n) out.old at result out.new }
{
    let at = put_two(n / 65536, out, at);
    put_two(n, out, at)
}

// The whole seconds up to a tick of FSK: 1,200 ticks are 11 seconds.
fn fsk_seconds(tick: u64) -> u64
    ensures { result ≡ tick * 11 / 1200 }
{
    tick / 1200 * 11 + tick % 1200 * 11 / 1200
}

// What is left after them, in parts of which a second has 1,200.
fn fsk_rest(tick: u64) -> u64
    ensures { result ≡ tick * 11 % 1200 }
{
    tick % 1200 * 11 % 1200
}

fn fsk_microseconds(tick: u64) -> u64
    ensures { result ≡ tick * 11 % 1200 * 2500 / 3 }
{
    fsk_rest(tick) * 2500 / 3
}

fn seconds_of(clock: Clock, tick: u64) -> u64
    ensures { result ≡ seconds_of clock tick }
{
    match clock {
        Clock::Fsk => fsk_seconds(tick),
        Clock::C8psk => tick / 1000,
    }
}

fn microseconds_of(clock: Clock, tick: u64) -> u64
    ensures { result ≡ microseconds_of clock tick }
{
    match clock {
        Clock::Fsk => fsk_microseconds(tick),
        Clock::C8psk => tick % 1000 * 1000,
    }
}

// A packet's own header.
fn put_record(clock: Clock, tick: u64, size: u64, out: &mut [u8], at: usize) -> usize
    ensures { PutIs (record_header clock tick size) out.old at result out.new }
{
    let at = put_four(seconds_of(clock, tick), out, at);
    let at = put_four(microseconds_of(clock, tick), out, at);
    let at = put_four(size, out, at);
    put_four(size, out, at)
}

fn master_address(primary: bool) -> u64
    ensures { result ≡ master_address primary }
{
    if primary { 3232235521 } else { 3232235522 }
}

fn device_address(long: bool, address: u64) -> u64
    ensures { result ≡ device_address long address }
{
    if long {
        167772160 + address % 16777216
    } else {
        3232235776 + address % 256
    }
}

// The sender's address.
fn source_of(header: Header) -> u64
    ensures { result ≡ source_of header }
{
    if header.kind == frame::STX {
        master_address(header.primary)
    } else {
        device_address(header.long, header.address)
    }
}

// The address of whom it speaks to.
fn target_of(header: Header) -> u64
    ensures { result ≡ target_of header }
{
    if header.kind == frame::STX {
        device_address(header.long, header.address)
    } else {
        master_address(header.primary)
    }
}

// The sum of the IPv4 header's words.
fn sum_of(size: u64, source: u64, target: u64) -> u64
    ensures { result ≡ sum_of size source target }
{
    0x4500
        + size % 65536
        + 0x4000
        + 0x4011
        + (source / 65536 % 65536 + source % 65536)
        + (target / 65536 % 65536 + target % 65536)
}

fn fold(sum: u64) -> u64
    ensures { result ≡ folded sum }
{
    sum % 65536 + sum / 65536
}

#[tactic(auto, using(crate::proofs::Headers::checksum_is))]
fn checksum_of(size: u64, source: u64, target: u64) -> u64
    ensures { result ≡ checksum_of size source target }
{
    65_535u64.saturating_sub(fold(fold(sum_of(size, source, target))))
}

// The IPv4 header up to its checksum.
fn put_ip_front(size: u64, out: &mut [u8], at: usize) -> usize
    ensures { PutIs (ip_front size) out.old at result out.new }
{
    let at = put_bytes(b"\x45\x00", out, at);
    let at = put_two(size, out, at);
    put_bytes(b"\x00\x00\x40\x00\x40\x11", out, at)
}

// The rest of it: checksum and addresses.
fn put_ip_ends(size: u64, header: Header, out: &mut [u8], at: usize) -> usize
    ensures { PutIs (ip_ends size header) out.old at result out.new }
{
    let source = source_of(header);
    let target = target_of(header);
    let at = put_two(checksum_of(size, source, target), out, at);
    let at = put_four(source, out, at);
    put_four(target, out, at)
}

fn put_udp(size: u64, out: &mut [u8], at: usize) -> usize
    ensures { PutIs (udp_header size) out.old at result out.new }
{
    let at = put_two(5094, out, at);
    let at = put_two(5094, out, at);
    let at = put_two(size, out, at);
    put_two(0, out, at)
}

fn message_type(frame: u8) -> u8
    ensures { result ≡ message_type frame }
{
    if frame == frame::STX {
        0
    } else if frame == frame::ACK {
        1
    } else {
        2
    }
}

// The HART-IP header.
fn put_hart(frame: u8, number: u16, size: u64, out: &mut [u8], at: usize) -> usize
    ensures { PutIs (hart_header frame number size) out.old at result out.new }
{
    let at = put_byte(1, out, at);
    let at = put_byte(message_type(frame), out, at);
    let at = put_bytes(b"\x03\x00", out, at);
    let at = put_two(number as u64, out, at);
    put_two(size, out, at)
}

// How many bytes a message has, in 16 bits.
fn length_of(message: &[u8]) -> u16
    ensures { result ≡ length message.now % 65536 }
{
    (message.len() % 65536) as u16
}

fn put_packet(
    clock: Clock,
    tick: u64,
    number: u16,
    header: Header,
    message: &[u8],
    out: &mut [u8],
    at: usize,
) -> usize
    ensures { PutIs (packet clock tick number header message.now) out.old at result out.new }
{
    let n = length_of(message) as u64;
    let at = put_record(clock, tick, n + 36, out, at);
    let at = put_ip_front(n + 36, out, at);
    let at = put_ip_ends(n + 36, header, out, at);
    let at = put_udp(n + 16, out, at);
    let at = put_hart(header.kind, number, n + 8, out, at);
    put_bytes(message, out, at)
}

// The packet of a tick, by what the reader tells in it.
#[tactic(auto, using(crate::proofs::Capturing::put_events))]
fn put_event(p: Progress, event: Event, message: &[u8], out: &mut [u8], at: usize) -> usize
    ensures { PutIs (packet_by p.clock p.tick p.number event message.now) out.old at result out.new }
{
    match event {
        Event::Frame(w) => put_packet(p.clock, p.tick, p.number, w.header, message, out, at),
        _ => at,
    }
}

fn next_number(n: u16) -> u16
    ensures { result ≡ next_number n }
{
    n.wrapping_add(1)
}

#[tactic(auto, using(crate::proofs::Capturing::number_at_lem))]
fn number_after(event: Event, n: u16) -> u16
    ensures { result ≡ number_after event n }
{
    match event {
        Event::Frame(_) => next_number(n),
        _ => n,
    }
}

// What was heard, after the bytes of its frame.
#[tactic(auto, using(crate::proofs::Capturing::heards))]
fn put_heard(heard: Heard, frame: &mut [u8], held: usize) -> usize
    ensures { PutIs (heard_text heard) frame.old held result frame.new }
{
    match heard {
        Heard::Silence => held,
        Heard::Character(c) | Heard::Damaged(c, _) => put_byte(c, frame, held),
    }
}

fn is_inside(place: Place) -> bool
    ensures { result ≡ is_inside place }
{
    !matches!(place, Place::Passing | Place::Idle | Place::Preamble(_))
}

// How many bytes of a frame are kept for the next tick.
fn held_behind(place: Place, held: usize) -> usize
    ensures { result ≡ held_behind place held }
{
    if is_inside(place) { held } else { 0 }
}

// What is kept after a tick of the reader, with so many bytes of the frame.
#[tactic(auto, using(crate::proofs::Capturing::behind_is))]
fn behind_tick(p: Progress, taken: Taken, held: usize) -> Progress
    ensures { result ≡ progress_behind p taken held }
{
    Progress {
        // Field by field: copied as a block, the reader stays in memory, and each tick takes longer.
        receiver: line_reader::copy_receiver(taken.receiver),
        tick: p.tick.wrapping_add(1),
        number: number_after(taken.event, p.number),
        held: held_behind(taken.receiver.place, held),
        ..p
    }
}

// A tick: its packet from a place on.
#[tactic(auto, using(crate::proofs::Capturing::taken_progress, crate::proofs::Capturing::grown_at, crate::proofs::Capturing::taken_packet))]
fn tick(
    p: Progress,
    heard: Heard,
    bytes: &mut [u8; 255],
    frame: &mut [u8],
    out: &mut [u8],
    at: usize,
) -> Captured
    ensures { TickIs p heard bytes.old bytes.new frame.old frame.new out.old at result out.new }
{
    let taken = line_reader::take(p.receiver, heard, bytes);
    let held = put_heard(heard, frame, p.held);
    let at = put_event(p, taken.event, texts::front(frame, held), out, at);
    Captured {
        progress: behind_tick(p, taken, held),
        at,
    }
}

// The packets of a piece of a recording, at the front of the output, and what is kept after it.
#[tactic(auto, using(crate::proofs::Capturing::capturings))]
pub fn packets(
    p: Progress,
    piece: &[u8],
    bytes: &mut [u8; 255],
    frame: &mut [u8],
    out: &mut [u8],
) -> Captured
    ensures { PacketsAre p (ticks_of piece.now) bytes.old bytes.new frame.old frame.new out.old result out.new }
{
    let mut captured = Captured { progress: p, at: 0 };
    for t in 0..piece.len() / 2 {
        let heard = line::heard_of(piece[2 * t] / 32, piece[2 * t + 1]);
        captured = tick(captured.progress, heard, bytes, frame, out, captured.at);
    }
    captured
}
