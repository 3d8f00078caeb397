// Runs the worked bytes of document 01 and the standard's frame types through the frame writer and reader, and prints what they answer.
#![tactic(auto)]

use base::Refusal;
use example_texts::{print_line, put_header};
use frame::{ACK, BACK, Delimiter, Found, Header, STX};
use std::io;
use texts::{bit, put_all_spaced, put_bytes, put_field, put_spaced};

fn put_refused(why: Refusal, out: &mut [u8], at: usize) -> usize {
    put_field(b": refused ", u64::from(why.number()), out, at)
}

// The numbers after the header.
fn put_rest(f: Found, out: &mut [u8], at: usize) -> usize {
    let mut place = put_field(b" expansion ", u64::from(f.expansion), out, at);
    place = put_field(b" command ", u64::from(f.header.command), out, place);
    place = put_field(b" start ", f.start as u64, out, place);
    place = put_field(b" count ", f.count as u64, out, place);
    put_field(b" end ", f.end as u64, out, place)
}

fn put_found(f: Found, out: &mut [u8], at: usize) -> usize {
    let mut place = put_field(b": preamble ", f.preamble as u64, out, at);
    place = put_header(f.header, out, place);
    put_rest(f, out, place)
}

fn put_delimiter(delimiter: Option<Delimiter>, out: &mut [u8], at: usize) -> usize {
    match delimiter {
        Some(d) => {
            let mut place = put_field(b": type ", u64::from(d.kind), out, at);
            place = put_field(b" long ", bit(d.long), out, place);
            put_field(b" expansion ", u64::from(d.expansion), out, place)
        }
        None => put_bytes(b": none", out, at),
    }
}

// What a byte means in the delimiter's place.
fn show_delimiter(rt: &impl Print, byte: u8) -> io::Result<()> {
    let mut out = [0u8; 4096];
    let mut place = put_bytes(b"delimiter", &mut out, 0);
    place = put_spaced(byte, &mut out, place);
    place = put_delimiter(frame::delimiter_of(byte), &mut out, place);
    print_line(rt, &out, place)
}

// The check byte of some bytes from the delimiter on.
fn show_check(rt: &impl Print, bytes: &[u8]) -> io::Result<()> {
    let mut out = [0u8; 4096];
    let mut place = put_bytes(b"check", &mut out, 0);
    place = put_all_spaced(bytes, &mut out, place);
    place = put_bytes(b":", &mut out, place);
    place = put_spaced(frame_check::xor_from(0, bytes), &mut out, place);
    print_line(rt, &out, place)
}

fn put_read(bytes: &[u8], read: Result<Found, Refusal>, out: &mut [u8], at: usize) -> usize {
    match read {
        Ok(f) => {
            let mut place = put_found(f, out, at);
            place = put_bytes(b" data", out, place);
            put_all_spaced(frame_read::part(bytes, f.start, f.count), out, place)
        }
        Err(why) => put_refused(why, out, at),
    }
}

// What is read from some bytes, and the data.
fn show_read(rt: &impl Print, bytes: &[u8]) -> io::Result<()> {
    let mut out = [0u8; 4096];
    let mut place = put_bytes(b"read", &mut out, 0);
    place = put_all_spaced(bytes, &mut out, place);
    place = put_read(bytes, frame_read::read(bytes), &mut out, place);
    print_line(rt, &out, place)
}

fn put_written(buffer: &[u8], written: Result<usize, Refusal>, out: &mut [u8], at: usize) -> usize {
    match written {
        Ok(end) => put_all_spaced(frame_read::part(buffer, 0, end), out, at),
        Err(why) => put_refused(why, out, at),
    }
}

// What is written into a buffer from its front.
fn show_write(rt: &impl Print, preamble: usize, h: Header, bytes: &[u8]) -> io::Result<()> {
    let mut buffer = [0u8; 300];
    let mut out = [0u8; 4096];
    let mut place = put_bytes(b"write", &mut out, 0);
    let written = frame_write::write(preamble, h, bytes, &mut buffer, 0);
    place = put_written(&buffer, written, &mut out, place);
    print_line(rt, &out, place)
}

fn put_end(written: Result<usize, Refusal>, out: &mut [u8], at: usize) -> usize {
    match written {
        Ok(end) => put_field(b": to ", end as u64, out, at),
        Err(why) => put_refused(why, out, at),
    }
}

// How long a frame is that is written into a buffer from a place on.
fn show_length(
    rt: &impl Print,
    start: usize,
    preamble: usize,
    h: Header,
    bytes: &[u8],
) -> io::Result<()> {
    let mut buffer = [0u8; 300];
    let mut out = [0u8; 4096];
    let mut place = put_field(b"data bytes ", bytes.len() as u64, &mut out, 0);
    place = put_field(b" at ", start as u64, &mut out, place);
    let written = frame_write::write(preamble, h, bytes, &mut buffer, start);
    place = put_end(written, &mut out, place);
    print_line(rt, &out, place)
}

// A header by its fields.
fn header(frame: u8, long: bool, primary: bool, burst: bool, address: u64, command: u8) -> Header {
    Header {
        kind: frame,
        long,
        primary,
        burst,
        address,
        command,
    }
}

// The standard's three frame types with each address, expansion bytes, and what is no delimiter.
fn delimiters(rt: &impl Print) -> io::Result<()> {
    for byte in [0x02, 0x82, 0x06, 0x86, 0x01, 0x81, 0xE2, 0x0A, 0x03, 0xFF] {
        show_delimiter(rt, byte)?;
    }
    Ok(())
}

// Document 01's worked check bytes.
fn checks(rt: &impl Print) -> io::Result<()> {
    let all: [&[u8]; 3] = [
        b"\x02\x80\x00\x00",
        b"\x82\x80\x00\x00\x00\x02\x03\x00",
        b"\x06\x80\x00\x02\x00\x00",
    ];
    for bytes in all {
        show_check(rt, bytes)?;
    }
    Ok(())
}

// The same three as frames, a BACK, and the largest polling address.
fn writes(rt: &impl Print) -> io::Result<()> {
    show_write(rt, 5, header(STX, false, true, false, 0, 0), b"")?;
    show_write(rt, 5, header(STX, true, true, false, 2, 3), b"")?;
    show_write(rt, 5, header(ACK, false, true, false, 0, 0), b"\x00\x00")?;
    show_write(
        rt,
        5,
        header(BACK, true, false, true, 274877906943, 3),
        b"\x00\x40\x07",
    )?;
    show_write(rt, 5, header(STX, false, true, false, 63, 0), b"")
}

// Each refusal of the fields.
fn refusals(rt: &impl Print) -> io::Result<()> {
    show_write(rt, 4, header(STX, false, true, false, 63, 0), b"")?;
    show_write(rt, 5, header(STX, false, true, false, 64, 0), b"")?;
    show_write(rt, 5, header(STX, true, true, false, 274877906944, 0), b"")?;
    show_write(rt, 5, header(ACK, false, true, false, 0, 0), b"\x00")?;
    show_write(rt, 5, header(3, false, true, false, 0, 0), b"")
}

// 255 data bytes and 256; the longest frame, and a buffer that is one byte too short for it.
fn lengths(rt: &impl Print, zeros: &[u8; 256]) -> io::Result<()> {
    let most = &zeros[..255];
    let h = header(STX, true, true, false, 2, 3);
    show_length(rt, 0, 20, h, most)?;
    show_length(rt, 16, 20, h, most)?;
    show_length(rt, 17, 20, h, most)?;
    show_length(rt, 0, 20, h, zeros)?;
    show_length(rt, 301, 20, h, b"")
}

// Frames that are read, and each refusal.
fn reads(rt: &impl Print) -> io::Result<()> {
    let all: [&[u8]; 13] = [
        b"\xFF\xFF\x02\x80\x00\x00\x82",
        b"\xFF\xFF\xFF\xFF\xFF\x06\x80\x00\x02\x00\x00\x84\x55",
        b"\xFF\xFF\x86\x40\x00\x00\x01\x00\x03\x03\x00\x01\x02\xC4",
        b"\xFF\xFF\x42\x85\xAA\xBB\x00\x00\xD6",
        b"",
        b"\xFF",
        b"\xFF\x02\x80\x00\x00\x82",
        b"\xFF\xFF",
        b"\xFF\xFF\x03\x80\x00\x00\x83",
        b"\xFF\xFF\x02\x80\x00\x00",
        b"\xFF\xFF\x06\x80\x00\x01\x00\x87",
        b"\xFF\xFF\x06\x80\x00\x01\x00",
        b"\xFF\xFF\x02\x80\x00\x00\x83",
    ];
    for bytes in all {
        show_read(rt, bytes)?;
    }
    Ok(())
}

fn main(rt: HostRuntime) -> io::Result<()> {
    let zeros = [0u8; 256];
    delimiters(&rt)?;
    checks(&rt)?;
    writes(&rt)?;
    refusals(&rt)?;
    lengths(&rt, &zeros)?;
    reads(&rt)
}
