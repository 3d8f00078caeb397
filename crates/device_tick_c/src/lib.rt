// The tick of a device as programs in C call it; the device's words are device_c's.
#![tactic(auto)]

ghost use Rattle.line.specs.Heard.{heard_of};
ghost use Rattle.device_tick.specs.Tick.{host_call_by};
ghost use Rattle.device_c.specs.Tick.{DeviceTicks};

// A tick of a device; returns 0, or the number with which its host's answer or burst content is refused.
#[unsafe(no_mangle)]
pub extern "C" fn nengapiko_device_tick(
    state: &mut [u64; 41],
    frame: &mut [u8; 284],
    bytes: &mut [u8; 255],
    contents: &mut [u8; 255],
    kind: u8,
    character: u8,
    call: u8,
    command: u8,
    put: &[u8],
    results: &mut [u64; 17],
) -> u32
    ensures { DeviceTicks state frame bytes contents (heard_of kind character) (host_call_by call command) put.now results result }
{
    device_c::nengapiko_device_tick(
        state, frame, bytes, contents, kind, character, call, command, put, results,
    )
}
