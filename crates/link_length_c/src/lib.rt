// The data length for a wait and the longest wait for a data length, for programs in C.
#![tactic(auto)]

ghost use Rattle.link_length_c.specs.Call.{profile, LengthCall, WaitCall};

use line::Profile;

// Sets length to the largest data length whose plain wait stays within this one; or returns the refusal's number, 1, 2 or 26, and changes nothing.
#[unsafe(no_mangle)]
pub extern "C" fn nengapiko_data_length(
    sto: u16,
    hold: u16,
    rt2: u16,
    rt1p: u16,
    rt1s: u16,
    retries: u8,
    wait: u32,
    length: &mut u8,
) -> u32
    ensures { LengthCall (profile sto hold rt2 rt1p rt1s) retries wait length result }
{
    let p = Profile {
        sto,
        hold,
        rt2,
        rt1p,
        rt1s,
    };
    match link_length::data_length(p, retries, wait) {
        Ok(n) => {
            *length = n;
            0
        }
        Err(why) => why.number(),
    }
}

// Sets wait to the longest wait on a link with this data length, with or without a bursting device; or returns the refusal's number, 1, 2 or 9, and changes nothing.
#[unsafe(no_mangle)]
pub extern "C" fn nengapiko_longest_wait(
    sto: u16,
    hold: u16,
    rt2: u16,
    rt1p: u16,
    rt1s: u16,
    retries: u8,
    length: usize,
    bursting: bool,
    wait: &mut u32,
) -> u32
    ensures { WaitCall (profile sto hold rt2 rt1p rt1s) retries length bursting wait result }
{
    let p = Profile {
        sto,
        hold,
        rt2,
        rt1p,
        rt1s,
    };
    match link_length::longest_wait(p, retries, length, bursting) {
        Ok(n) => {
            *wait = n;
            0
        }
        Err(why) => why.number(),
    }
}
