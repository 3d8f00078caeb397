// The latest readings table for programs in C: a lent slice of rows.
#![tactic(auto)]

ghost use Rattle.std.specs.Prelude.{◌≡◌};
ghost use Rattle.readings.specs.Table.{cleared, looked_up, shown_byte};
ghost use Rattle.readings.specs.Stores.{EnterIs};
ghost use Rattle.state_words.specs.Numbers.{event_at};

use readings::Row;

// Empties every row; the byte area stays as it is.
#[unsafe(no_mangle)]
pub extern "C" fn nengapiko_readings_clear(rows: &mut [Row])
    ensures { rows.new ≡ cleared rows.old }
{
    rows.fill(readings::empty_row());
}

// Enters what a tick's numbers tell, or refuses it; the tick is that of the frame's last character, and bytes holds its data.
#[unsafe(no_mangle)]
pub extern "C" fn nengapiko_readings_enter(
    rows: &mut [Row],
    area: &mut [u8],
    tick: u64,
    results: &[u64; 17],
    bytes: &[u8; 255],
) -> u32
    ensures { EnterIs rows.old rows.new area.old area.new tick (event_at results.now) bytes.now result }
{
    let event = state_words::event_at(results);
    let s = readings_rows::search(rows, readings::told_key(event));
    match readings::store(area, rows.len(), s, tick, event, bytes) {
        Ok(Some(put)) => {
            readings_rows::put(rows, put.at, put.row);
            0
        }
        Ok(None) => 0,
        Err(refusal) => refusal.number(),
    }
}

// The number of the first row of an address and a command, or the number of rows where there is none.
#[unsafe(no_mangle)]
pub extern "C" fn nengapiko_readings_find(rows: &[Row], address: u64, command: u8) -> usize
    ensures { result ≡ looked_up rows.now (record { address = address; command = command }) }
{
    let k = readings::key_of(address, command);
    readings::looked_up(rows.len(), readings_rows::search(rows, k), k)
}

// The second data byte of a reading as a master's host is shown it, from the stored byte and that master's bits of the row.
#[unsafe(no_mangle)]
pub extern "C" fn nengapiko_readings_status(stored: u8, bits: u8) -> u8
    ensures { result ≡ shown_byte stored bits }
{
    readings::shown_byte(stored, bits)
}
