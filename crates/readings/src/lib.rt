// The latest readings table (document 02, items 7 and 8): its rows, and the code that needs no table in hand, over numbers, rows by value and the lent byte area.
#![tactic(auto, using(base::proofs::Choices::choices))]

ghost use Rattle.std.specs.Prelude.{◌+◌, ◌*◌, ◌≤◌, ◌≡◌, length, take};
ghost use Rattle.base.specs.Choice.{when◌then◌else◌};
ghost use Rattle.base.specs.Store.{stored};
ghost use Rattle.readings.specs.Table.{row_bytes, empty_row, has_key, is_reading, row_for, sought, own_bits, common_byte, stored_bytes, kept_bits, shown_byte};
ghost use Rattle.readings.specs.Search.{told_key, next, looked_up_by, row_at, rows_of, row_numbers};
ghost use Rattle.readings.specs.Stores.{stored_byte, RowIs, PutIs, PutByIs, FrameIs, StoreIs};

use base::Refusal;
use line::{Event, Whole};

// The bits of a second data byte that are meant for one master only.
const CONFIGURATION_CHANGED: u8 = 0x40;

const MORE_STATUS: u8 = 0x10;

// A row: the newest reading of a device and a command. Address 0 is an empty row.
#[repr(C)]
#[derive(Clone, Copy)]
pub struct Row {
    pub address: u64,
    // the tick of its last character
    pub tick: u64,
    // where its data begin in the lent byte area
    pub place: usize,
    pub command: u8,
    pub count: u8,
    // the two bits of the second data byte that are meant for one master only, as the last frame to each had them
    pub primary: u8,
    pub secondary: u8,
    // always 0: with it every byte of a row belongs to a field
    pub spare: u32,
}

// What a row is found by.
#[derive(Clone, Copy)]
pub struct Key {
    pub address: u64,
    pub command: u8,
}

// Where a frame goes in a table.
#[derive(Clone, Copy)]
pub enum Sought {
    // the first row of its address and command, and what it holds
    Match(usize, Row),
    // the first empty row, and what it holds
    Empty(usize, Row),
    Full,
}

// A row that is put into a table, and its place there.
#[derive(Clone, Copy)]
pub struct Put {
    pub at: usize,
    pub row: Row,
}

// A row of a cleared table.
pub fn empty_row() -> Row
    ensures { result ≡ empty_row }
{
    Row {
        address: 0,
        tick: 0,
        place: 0,
        command: 0,
        count: 0,
        primary: 0,
        secondary: 0,
        spare: 0,
    }
}

pub fn key_of(address: u64, command: u8) -> Key
    ensures { result ≡ record { address = address; command = command } }
{
    Key { address, command }
}

// The key of the frame that a tick tells.
pub fn told_key(event: Event) -> Key
    ensures { result ≡ told_key event }
{
    match event {
        Event::Frame(w) => key_of(w.header.address, w.header.command),
        _ => key_of(0, 0),
    }
}

// Whether a row has this address and command.
fn has_key(row: Row, k: Key) -> bool
    ensures { result ≡ has_key k row }
{
    row.address == k.address && row.command == k.command
}

// One more row is looked at.
pub fn sought_next(s: Sought, at: usize, row: Row, k: Key) -> Sought
    ensures { result ≡ next s at row k }
{
    match s {
        Sought::Match(_, _) => s,
        _ if has_key(row, k) => Sought::Match(at, row),
        Sought::Full if row.address == 0 => Sought::Empty(at, row),
        _ => s,
    }
}

// The number of the row that is looked up among so many; the number of rows where there is none.
pub fn looked_up(rows: usize, s: Sought, k: Key) -> usize
    ensures { result ≡ looked_up_by rows s k }
{
    match s {
        Sought::Match(i, _) if k.address != 0 => i,
        _ => rows,
    }
}

// Whether a frame is entered.
fn is_reading(w: Whole, bytes: &[u8; 255]) -> bool
    ensures { result ≡ is_reading w bytes.now }
{
    bytes[0] < 128
        && w.header.address != 0
        && w.header.address < 274877906944
        && 2 <= w.count
        && w.header.long
        && frame::from_device(w.header.kind)
}

// The bits of a second data byte that are meant for one master only.
fn own_bits(b: u8) -> u8
    ensures { result ≡ own_bits b }
{
    CONFIGURATION_CHANGED * (b / CONFIGURATION_CHANGED % 2) + MORE_STATUS * (b / MORE_STATUS % 2)
}

// The byte with both of these bits 0.
fn common_byte(b: u8) -> u8
    ensures { result ≡ common_byte b }
{
    b - own_bits(b)
}

// What is stored for data byte i.
fn stored_byte(i: usize, b: u8) -> u8
    ensures { result ≡ stored_byte i b }
{
    if i == 1 { common_byte(b) } else { b }
}

// A master's bits in a row; an empty row has none.
fn kept_bits(primary: bool, row: Row) -> u8
    ensures { result ≡ kept_bits primary row }
{
    if row.address == 0 {
        0
    } else if primary {
        row.primary
    } else {
        row.secondary
    }
}

// The second data byte as a master's host is shown it: as it is stored, with that master's bits.
pub fn shown_byte(stored: u8, bits: u8) -> u8
    ensures { result ≡ shown_byte stored bits }
{
    common_byte(stored) + own_bits(bits)
}

// Copies the first count bytes to the front of a part of the area, as they are stored.
#[tactic(auto, using(base::proofs::Choices::choices, base::proofs::Stores::storing))]
fn copy(to: &mut [u8], bytes: &[u8], count: u8)
    requires { (count ≤ length to.old) × (count ≤ length bytes.now) }
    ensures { to.new ≡ stored to.old 0 (take count (stored_bytes bytes.now)) }
{
    for (i, byte) in bytes[..count as usize].iter().enumerate() {
        to[i] = stored_byte(i, *byte);
    }
}

// The row of a frame that goes to row i.
fn row_for(i: usize, tick: u64, w: Whole, second: u8, was: Row) -> Row
    requires { row_bytes * i ≤ 9223372036854775807 }
    ensures { result ≡ row_for i tick w second was }
{
    let own = own_bits(second);
    let (primary, secondary) = if w.header.primary {
        (own, kept_bits(false, was))
    } else {
        (kept_bits(true, was), own)
    };
    Row {
        address: w.header.address,
        tick,
        place: 255 * i,
        command: w.header.command,
        count: w.count,
        primary,
        secondary,
        spare: 0,
    }
}

// Stores the data of a frame that goes to row i.
fn put_row(area: &mut [u8], i: usize, tick: u64, w: Whole, bytes: &[u8; 255], was: Row) -> Put
    requires { row_bytes * i + row_bytes ≤ length area.old }
    ensures { RowIs area.old area.new i tick w bytes.now was result }
{
    copy(&mut area[255 * i..], bytes, w.count);
    Put {
        at: i,
        row: row_for(i, tick, w, bytes[1], was),
    }
}

// The same where row i is one of so many rows; else nothing is put.
#[tactic(auto, using(base::proofs::Choices::choices, crate::proofs::Puts::puts))]
fn put_at(
    area: &mut [u8],
    rows: usize,
    i: usize,
    tick: u64,
    w: Whole,
    bytes: &[u8; 255],
    was: Row,
) -> Option<Put>
    requires { row_bytes * rows ≤ length area.old }
    ensures { PutIs area.old area.new rows i tick w bytes.now was result }
{
    if i < rows {
        Some(put_row(area, i, tick, w, bytes, was))
    } else {
        None
    }
}

// The same, by where the frame goes; a full table refuses it.
#[tactic(auto, using(base::proofs::Choices::choices, crate::proofs::Puts::puts))]
fn put_by(
    area: &mut [u8],
    rows: usize,
    s: Sought,
    tick: u64,
    w: Whole,
    bytes: &[u8; 255],
) -> Result<Option<Put>, Refusal>
    requires { row_bytes * rows ≤ length area.old }
    ensures { PutByIs area.old area.new rows s tick w bytes.now result }
{
    match s {
        Sought::Match(i, was) | Sought::Empty(i, was) => {
            Ok(put_at(area, rows, i, tick, w, bytes, was))
        }
        Sought::Full => Err(Refusal::TableFull),
    }
}

#[tactic(auto, using(base::proofs::Choices::choices, crate::proofs::Puts::puts))]
fn put_frame(
    area: &mut [u8],
    rows: usize,
    s: Sought,
    tick: u64,
    w: Whole,
    bytes: &[u8; 255],
) -> Result<Option<Put>, Refusal>
    requires { row_bytes * rows ≤ length area.old }
    ensures { FrameIs area.old area.new rows s tick w bytes.now result }
{
    if is_reading(w, bytes) {
        put_by(area, rows, s, tick, w, bytes)
    } else {
        Ok(None)
    }
}

// What is put into a table of so many rows for what a tick tells, if anything is; a reading's data are stored.
#[tactic(auto, using(base::proofs::Choices::choices, crate::proofs::Puts::stores))]
pub fn store(
    area: &mut [u8],
    rows: usize,
    s: Sought,
    tick: u64,
    event: Event,
    bytes: &[u8; 255],
) -> Result<Option<Put>, Refusal>
    ensures { StoreIs area.old area.new rows s tick event bytes.now result }
{
    if area.len() / 255 < rows {
        return Err(Refusal::BufferShort);
    }
    match event {
        Event::Frame(w) => put_frame(area, rows, s, tick, w, bytes),
        _ => Ok(None),
    }
}

// The row that begins at a place of flat numbers.
fn row_at(numbers: &[u64], i: usize) -> Row
    requires { i + 7 ≤ length numbers.now }
    ensures { result ≡ row_at numbers.now i }
{
    Row {
        address: numbers[i],
        tick: numbers[i + 2],
        place: numbers[i + 4] as usize,
        command: (numbers[i + 1] % 256) as u8,
        count: (numbers[i + 3] % 256) as u8,
        primary: (numbers[i + 5] % 256) as u8,
        secondary: (numbers[i + 6] % 256) as u8,
        spare: 0,
    }
}

// The search over flat numbers, seven for a row. readings_rows has it over rows: document 01 wants both forms.
#[tactic(auto, using(base::proofs::Choices::choices, crate::proofs::Searches::flats))]
pub fn search(numbers: &[u64], k: Key) -> Sought
    ensures { result ≡ sought (rows_of numbers.now) k }
{
    let mut s = Sought::Full;
    for i in 0..numbers.len() / 7 {
        s = sought_next(s, i, row_at(numbers, 7 * i), k);
    }
    s
}
