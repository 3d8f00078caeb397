// The tick of a master as programs in C call it; the master's words are master_c's.
#![tactic(auto)]

ghost use Rattle.line.specs.Heard.{heard_of};
ghost use Rattle.master_c.specs.Tick.{request_of, MasterTicks};

// A tick of a master; returns 0, or the number of the request's refusal.
#[unsafe(no_mangle)]
pub extern "C" fn nengapiko_master_tick(
    state: &mut [u64; 40],
    frame: &mut [u8; 284],
    bytes: &mut [u8; 255],
    kind: u8,
    character: u8,
    requests: bool,
    preamble: usize,
    revision: u8,
    long: bool,
    address: u64,
    command: u8,
    put: &[u8],
    results: &mut [u64; 17],
) -> u32
    ensures { MasterTicks state frame bytes (heard_of kind character) (request_of requests preamble revision long address command) put.now results result }
{
    master_c::nengapiko_master_tick(
        state, frame, bytes, kind, character, requests, preamble, revision, long, address, command,
        put, results,
    )
}
