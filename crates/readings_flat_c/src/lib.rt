// The latest readings table over flat numbers, for tests: the search that document 01 names, with what rests on it.
#![tactic(auto)]

ghost use Rattle.std.specs.Prelude.{◌≡◌};
ghost use Rattle.readings.specs.Search.{row_numbers};
ghost use Rattle.state_words.specs.Numbers.{event_at};
ghost use Rattle.readings_flat_c.specs.Flat.{RowIsPut, FlatIs};

use readings::Row;

fn row_numbers(row: Row) -> [u64; 7]
    ensures { result ≡ row_numbers row }
{
    [
        row.address,
        row.command as u64,
        row.tick,
        row.count as u64,
        row.place as u64,
        row.primary as u64,
        row.secondary as u64,
    ]
}

// Puts a row at a place; nothing where the place is past the last row.
#[tactic(auto, using(crate::proofs::Puts::parts))]
fn put(numbers: &mut [u64], at: usize, row: Row)
    ensures { RowIsPut numbers.old numbers.new at row }
{
    if at < numbers.len() / 7 {
        state_words::put(&mut numbers[7 * at..], 0, &row_numbers(row));
    }
}

// Enters what a tick's numbers tell, or refuses it, as nengapiko_readings_enter does over rows: document 01 wants both forms.
#[unsafe(no_mangle)]
pub extern "C" fn nengapiko_readings_flat(
    numbers: &mut [u64],
    area: &mut [u8],
    tick: u64,
    results: &[u64; 17],
    bytes: &[u8; 255],
) -> u32
    ensures { FlatIs numbers.old numbers.new area.old area.new tick (event_at results.now) bytes.now result }
{
    let event = state_words::event_at(results);
    let s = readings::search(numbers, readings::told_key(event));
    match readings::store(area, numbers.len() / 7, s, tick, event, bytes) {
        Ok(Some(p)) => {
            put(numbers, p.at, p.row);
            0
        }
        Ok(None) => 0,
        Err(refusal) => refusal.number(),
    }
}
