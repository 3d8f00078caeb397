// The player: it plays a script on a link and lists the frames that were sent to the end.
#![tactic(auto, using(base::proofs::Choices::choices))]

ghost use Rattle.std.specs.Prelude.{◌≡◌, true, ◌+◌, ◌≤◌, ◌<◌, length};
ghost use Rattle.texts.specs.Put.{PutIs};
ghost use Rattle.player_script.specs.Script.{records_in, good_in};
ghost use Rattle.player.specs.Play.{listing, play, play_sized};
ghost use Rattle.player.specs.Ready.{setting_of, settings, ready_start};
ghost use Rattle.player.specs.Ticks.{rested_for, at_front, has_room, Stands, OnwardIs, PlaysAll};
ghost use Rattle.player.specs.Pieces.{told_of, Begun, PieceOf};

use line::Profile;
use link_parties::Link;
use link_start::Setting;
use link_ticks::Most;
use player_listing::Monitors;
use player_script::Form;

// What a play is told of its script: the form of its records, and its stop's tick.
#[derive(Clone, Copy)]
pub struct Told {
    pub form: Form,
    pub stop: u32,
}

// A play before a tick: the link and the monitors, and the places of the next record in the script and of the next byte in the output.
#[derive(Clone, Copy)]
pub struct Playing {
    pub link: Link,
    pub monitors: Monitors,
    pub tick: u32,
    pub next: usize,
    pub at: usize,
}

// There is a monitor for each party: the array's type says so, and the promises below need it in words.
fn monitor_each(monitors: Monitors)
    ensures { length monitors ≡ 8 }
{}

// A tick is a 32-bit number: its type says so, likewise.
fn tick_fits(tick: u32)
    ensures { tick < 4294967296 }
{}

// So many ticks of a link that rests.
#[tactic(auto, using(base::proofs::Choices::choices, crate::proofs::PlaysOn::rested_is))]
fn rest_on(p: Playing, ticks: u32) -> Playing
    requires { p.tick + ticks < 4294967296 }
    ensures { (result ≡ rested_for ticks p) × (length p.monitors ≡ 8) }
{
    monitor_each(p.monitors);
    Playing {
        link: link_rests::link_rested(p.link, ticks),
        monitors: player_listing::quiet_monitors(),
        tick: p.tick + ticks,
        ..p
    }
}

// At most 63 of some ticks.
fn few_of(ticks: u32) -> u16
    ensures { (result ≤ ticks) × (result < 64) }
{
    ticks.min(63) as u16
}

// The tick with its calls and those after it that have none, up to one in which a host is told something.
fn tick_on(
    p: Playing,
    told: Told,
    script: &[u8],
    frames: &mut [[u8; 284]; 8],
    bytes: &mut [[u8; 255]; 8],
    contents: &mut [[u8; 255]; 6],
    sent: &mut [[u16; 8]; 64],
    out: &mut [u8],
) -> Playing
    requires { p.tick < told.stop }
    ensures { OnwardIs told script.now p frames bytes contents out result }
{
    let put = [0u8; 255];
    tick_fits(told.stop);
    let wanted = player_script::calls_at(told.form, script, p.next, p.tick as usize);
    let calls = player_calls::calls_of(p.tick as usize, wanted);
    let free = player_script::free_ticks(told.form, script, wanted.next, p.tick + 1, told.stop);
    let few = few_of(free);
    let most = Most {
        ticks: few + 1,
        data: 255,
    };
    let t = link_ticks::ticks(most, p.link, calls, &put, frames, bytes, contents, sent);
    let heard = player_listing::list_ticks(p.monitors, p.tick, t.count, sent, out, p.at);
    // An array that is a field moves by a variable.
    let monitors = heard.monitors;
    Playing {
        link: t.link,
        monitors,
        tick: p.tick + (t.count as u32),
        next: wanted.next,
        at: heard.at,
    }
}

// One tick or more: as many as the link rests for, or some of its ticks. The buffers go one by one, as the promises name them.
fn onward(
    p: Playing,
    told: Told,
    script: &[u8],
    frames: &mut [[u8; 284]; 8],
    bytes: &mut [[u8; 255]; 8],
    contents: &mut [[u8; 255]; 6],
    sent: &mut [[u16; 8]; 64],
    out: &mut [u8],
) -> Playing
    requires { p.tick < told.stop }
    ensures { OnwardIs told script.now p frames bytes contents out result }
{
    tick_fits(told.stop);
    let free = player_script::free_ticks(told.form, script, p.next, p.tick, told.stop);
    if 0 < free && link_rests::link_rests(p.link) {
        rest_on(p, free)
    } else {
        tick_on(p, told, script, frames, bytes, contents, sent, out)
    }
}

// The ticks up to the stop's; returns the place after their lines in the output.
fn play_from(
    start: Playing,
    told: Told,
    script: &[u8],
    frames: &mut [[u8; 284]; 8],
    bytes: &mut [[u8; 255]; 8],
    contents: &mut [[u8; 255]; 6],
    out: &mut [u8],
) -> usize
    requires { Stands told.form script.now start × (start.tick ≤ told.stop) }
    ensures { PlaysAll told script.now start frames bytes contents out result }
{
    let mut sent = [[0u16; 8]; 64];
    let mut p = start;
    while p.tick < told.stop {
        p = onward(p, told, script, frames, bytes, contents, &mut sent, out);
    }
    p.at
}

// Whether from a place on there is room for the lines of 64 ticks, of at most 40 bytes each.
fn has_room(length: usize, at: usize) -> bool
    ensures { result ≡ has_room length at }
{
    at <= length && 2560 <= length - at
}

// A play whose output starts again at the buffer's front.
fn at_front(p: Playing) -> Playing
    ensures { result ≡ at_front p }
{
    Playing { at: 0, ..p }
}

// A piece of a play: its ticks, until it is over or the output has no room for the lines of 64 more. Their lines stand at the output's front.
pub fn play_on(
    start: Playing,
    told: Told,
    script: &[u8],
    frames: &mut [[u8; 284]; 8],
    bytes: &mut [[u8; 255]; 8],
    contents: &mut [[u8; 255]; 6],
    out: &mut [u8],
) -> Playing
    ensures { PieceOf told script.now start frames bytes contents out result }
{
    let mut sent = [[0u16; 8]; 64];
    let mut p = at_front(start);
    while p.tick < told.stop && has_room(out.len(), p.at) {
        p = onward(p, told, script, frames, bytes, contents, &mut sent, out);
    }
    p
}

// A device with polling address party − 2 and unique address equal to the party.
fn setting(party: u8) -> Setting
    requires { 2 ≤ party }
    ensures { result ≡ setting_of party }
{
    Setting {
        preamble: 5,
        polling: party - 2,
        unique: party as u64,
    }
}

#[tactic(auto, using(base::proofs::Choices::choices, crate::proofs::Started::settings_are))]
fn settings_of() -> [Option<Setting>; 6]
    ensures { result ≡ settings }
{
    [
        Some(setting(2)),
        Some(setting(3)),
        Some(setting(4)),
        Some(setting(5)),
        Some(setting(6)),
        Some(setting(7)),
    ]
}

// The link that stands ready. No refusal applies to its start.
#[tactic(auto, using(base::proofs::Choices::choices, crate::proofs::Started::ready_start_lem))]
fn ready_link() -> Link
    ensures { result ≡ ready_start }
{
    link_start::start(Profile::fsk(), 3, settings_of()).link
}

// What a play is told of a script of this form.
#[tactic(auto, using(base::proofs::Choices::choices, crate::proofs::Started::told_is))]
pub fn told_of(form: Form, script: &[u8]) -> Told
    ensures { result ≡ told_of form script.now }
{
    Told {
        form,
        stop: player_script::stop_tick(form, script),
    }
}

// A play before its first tick: the header line at the output's front.
pub fn play_begin(out: &mut [u8]) -> Playing
    ensures { Begun out.old result out.new }
{
    Playing {
        link: ready_link(),
        monitors: player_listing::quiet_monitors(),
        tick: 0,
        next: 0,
        at: player_listing::put_head(out, 0),
    }
}

// The listing of a good script: the header line, and the lines of a play from the ready link on.
fn play_good(form: Form, script: &[u8], out: &mut [u8]) -> usize
    requires { good_in form script.now ≡ true }
    ensures { PutIs (listing (records_in form script.now)) out.old 0 result out.new }
{
    let mut frames = [[0u8; 284]; 8];
    let mut bytes = [[0u8; 255]; 8];
    let mut contents = [[0u8; 255]; 6];
    let told = told_of(form, script);
    let p = play_begin(out);
    play_from(p, told, script, &mut frames, &mut bytes, &mut contents, out)
}

// Plays a script of this form.
fn play_form(form: Form, script: &[u8], out: &mut [u8]) -> usize
    ensures { PutIs (play form script.now) out.old 0 result out.new }
{
    if player_script::is_good(form, script) {
        play_good(form, script, out)
    } else {
        texts::put_bytes(b"16\n", out, 0)
    }
}

// Plays a script whose records have so many bytes into any output: it puts what is printed, as much as there is room for, and returns how much that is.
pub fn play_into(size: usize, script: &[u8], out: &mut [u8]) -> usize
    ensures { PutIs (play_sized size script.now) out.old 0 result out.new }
{
    match player_script::form_of(size) {
        Ok(form) => play_form(form, script, out),
        Err(_) => texts::put_bytes(b"24\n", out, 0),
    }
}
