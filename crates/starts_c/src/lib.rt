// The starts of the tick reader, a master and a device as programs in C call them.
#![tactic(auto)]

ghost use Rattle.state_start_c.specs.Start.{ReaderStarts, profile, MasterStarts, DeviceStarts};

// A reader at its start.
#[unsafe(no_mangle)]
pub extern "C" fn nengapiko_reader_start(state: &mut [u64; 16])
    ensures { ReaderStarts state }
{
    state_start_c::nengapiko_reader_start(state);
}

// A fresh master with a data limit; or refusal 1, 2 or 9, and the words as they were.
#[unsafe(no_mangle)]
pub extern "C" fn nengapiko_master_start(
    sto: u16,
    hold: u16,
    rt2: u16,
    rt1p: u16,
    rt1s: u16,
    primary: bool,
    retries: u8,
    limit: usize,
    state: &mut [u64; 40],
) -> u32
    ensures { MasterStarts (profile sto hold rt2 rt1p rt1s) primary retries limit state result }
{
    state_start_c::nengapiko_master_start(
        sto, hold, rt2, rt1p, rt1s, primary, retries, limit, state,
    )
}

// A fresh device with a data limit; or refusal 1, 3, 4 or 9, and the words as they were.
#[unsafe(no_mangle)]
pub extern "C" fn nengapiko_device_start(
    sto: u16,
    hold: u16,
    rt2: u16,
    rt1p: u16,
    rt1s: u16,
    preamble: usize,
    polling: u8,
    unique: u64,
    limit: usize,
    state: &mut [u64; 41],
) -> u32
    ensures { DeviceStarts (profile sto hold rt2 rt1p rt1s) preamble polling unique limit state result }
{
    state_start_c::nengapiko_device_start(
        sto, hold, rt2, rt1p, rt1s, preamble, polling, unique, limit, state,
    )
}
