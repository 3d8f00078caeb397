// Document 02, item 12: how much data for a wanted turn, and the longest wait for so much data.
#![tactic(auto, using(base::proofs::Choices::choices))]

ghost use Rattle.std.specs.Prelude.{◌≡◌, ◌+◌, ◌*◌, ◌<◌};
ghost use Rattle.frame.specs.Limits.{longest_frame};
ghost use Rattle.turns.specs.Demand3.{longest_wait, longer_with_burst};
ghost use Rattle.link_length.specs.Length.{largest_from, length_in, data_length, wait_with, wait_in, wait_for};
ghost use Rattle.base.specs.Refusal.{called_as};

use base::Refusal;
use line::Profile;

// ---- the wait formula

// F: 29 more than the data length.
fn longest_frame(length: u8) -> u32
    ensures { (result ≡ longest_frame length) × (result < 285) }
{
    (length as u32) + 29
}

// R and one more, times the ticks of an attempt.
fn attempts(retries: u8, ticks: u32) -> u32
    requires { ticks < 65820 }
    ensures { (result ≡ (retries + 1) * ticks) × (result < 16849921) }
{
    ((retries as u32) + 1) * ticks
}

// The longest wait without a bursting device.
fn plain_wait(length: u8, p: Profile, retries: u8) -> u32
    ensures { (result ≡ longest_wait length p retries) × (result < 17200000) }
{
    let frame = longest_frame(length);
    2 * (p.rt2 as u32)
        + (p.hold as u32)
        + attempts(retries, frame + (p.rt1s as u32))
        + (p.sto as u32)
        + frame
}

// What a bursting device adds to it.
fn longer_with_burst(length: u8, p: Profile) -> u32
    ensures { (result ≡ longer_with_burst length p) × (result < 200000) }
{
    let frame = longest_frame(length);
    4 * frame + (p.rt1s as u32) + 2 * (p.rt2 as u32)
}

fn wait_with(bursting: bool, length: u8, p: Profile, retries: u8) -> u32
    ensures { result ≡ wait_with bursting length p retries }
{
    let plain = plain_wait(length, p, retries);
    if bursting {
        plain + longer_with_burst(length, p)
    } else {
        plain
    }
}

// ---- the data length for a wait

// The largest length within the wait, from 255 down.
fn largest(p: Profile, retries: u8, wait: u32) -> u8
    ensures { result ≡ largest_from 255 p retries wait }
{
    for n in (1..=255).rev() {
        if plain_wait(n, p, retries) <= wait {
            return n;
        }
    }
    0
}

// For a profile that the check takes: 2, then 26, then the length.
fn length_in(p: Profile, retries: u8, wait: u32) -> Result<u8, Refusal>
    ensures { called_as result ≡ length_in p retries wait }
{
    if base::outside(retries as usize, 3, 15) {
        Err(Refusal::BadRetries)
    } else if wait < plain_wait(2, p, retries) {
        Err(Refusal::WaitTooShort)
    } else {
        Ok(largest(p, retries, wait))
    }
}

// The largest data length from 2 to 255 whose plain wait formula stays within this wait; or refusal 1, 2 or 26.
pub fn data_length(profile: Profile, retries: u8, wait: u32) -> Result<u8, Refusal>
    ensures { called_as result ≡ data_length profile retries wait }
{
    length_in(profile.checked()?, retries, wait)
}

// ---- the longest wait for a data length

// For a profile that the check takes: 2, then 9, then the wait.
fn wait_in(p: Profile, retries: u8, length: usize, bursting: bool) -> Result<u32, Refusal>
    ensures { called_as result ≡ wait_in p retries length bursting }
{
    if base::outside(retries as usize, 3, 15) {
        Err(Refusal::BadRetries)
    } else if base::outside(length, 2, 255) {
        Err(Refusal::DataLength)
    } else {
        Ok(wait_with(bursting, length as u8, p, retries))
    }
}

// The longest wait on a link with this data length, with or without a bursting device; or refusal 1, 2 or 9.
pub fn longest_wait(
    profile: Profile,
    retries: u8,
    length: usize,
    bursting: bool,
) -> Result<u32, Refusal>
    ensures { called_as result ≡ wait_for profile retries length bursting }
{
    wait_in(profile.checked()?, retries, length, bursting)
}
