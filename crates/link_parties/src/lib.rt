// The parties of a link: two masters and six slots for devices, the calls to them, and the shorter ticks of a party that only counts a silent tick or only hears a character.
#![tactic(auto, using(base::proofs::Choices::choices))]

ghost use Rattle.std.specs.Prelude.{◌≡◌};
ghost use Rattle.line.specs.Reader.{taken, taken_data};
ghost use Rattle.turns.specs.Link.{joins};
ghost use Rattle.link_parties.specs.Part.{data_of};
ghost use Rattle.link_parties.specs.Stands.{no_part, no_master_call, no_device_call, MasterIs, DeviceIs};
ghost use Rattle.link_parties.specs.Readers.{finds_nothing, step_of, same_reader};
ghost use Rattle.link_parties.specs.Ways.{hears_if, counts_if, calls_device, is_listening, device_counts, device_way, counted_device, heard_device};
ghost use Rattle.link_parties.specs.Ways.{calls_master, is_free, is_sending, master_counts, master_character, master_way, counted_master, heard_master};

use device_tick::{DeviceCall, DeviceTicked};
use line::{Damage, Event, Heard, Receiver, Taken};
use master::MasterTicked;
use turns::{CallResult, Device, DeviceTold, Master, MasterTold, Request, Sent, Stage, Turn, Wish};

// The data of a call: so many of the lent bytes from a place on, or as many as there are.
#[derive(Clone, Copy)]
pub struct Part {
    pub from: usize,
    pub count: usize,
}

// That data, in the lent bytes.
fn data_of(part: Part, put: &[u8]) -> &[u8]
    ensures { result.now ≡ data_of part put.now }
{
    let start = part.from.min(put.len());
    let count = part.count.min(put.len() - start);
    &put[start..start + count]
}

// A host's call to a master in a tick, with the data of a request.
#[derive(Clone, Copy)]
pub struct MasterCallWithPart {
    pub call: Option<Request>,
    pub part: Part,
}

// A host's call to a device in a tick, with the data of an answer or of a burst content.
#[derive(Clone, Copy)]
pub struct DeviceCallWithPart {
    pub call: DeviceCall,
    pub part: Part,
}

// A tick's calls, at most one for each party.
#[derive(Clone, Copy)]
pub struct Calls {
    pub masters: [MasterCallWithPart; 2],
    pub devices: [DeviceCallWithPart; 6],
}

// A link: its parties, and what the line carried in the last tick. The first master is the primary. A slot without a device is `None`.
#[derive(Clone, Copy)]
pub struct Link {
    pub masters: [Master; 2],
    pub devices: [Option<Device>; 6],
    pub line: Heard,
}

// What a host was told, and what became of its call.
#[derive(Clone, Copy)]
pub struct MasterDid {
    pub told: MasterTold,
    pub result: CallResult,
}

#[derive(Clone, Copy)]
pub struct DeviceDid {
    pub told: DeviceTold,
    pub result: CallResult,
}

// A link after so many ticks, and what the hosts were told and answered in them.
#[derive(Clone, Copy)]
pub struct Ticked {
    pub link: Link,
    pub count: u16,
    pub masters: [MasterDid; 2],
    pub devices: [DeviceDid; 6],
}

// What the line carries with a character more, where it carried this without it.
fn join_character(c: u8, heard: Heard) -> Heard
    ensures { result ≡ joins (Sent.Character c) heard }
{
    match heard {
        Heard::Silence => Heard::Character(c),
        Heard::Character(_) | Heard::Damaged(..) => Heard::Damaged(0x00, Damage::Framing),
    }
}

// What the line carries where one party sends this and this is heard of the others.
pub fn join(sent: Sent, heard: Heard) -> Heard
    ensures { result ≡ joins sent heard }
{
    match sent {
        Sent::Silent => heard,
        Sent::Character(c) => join_character(c, heard),
    }
}

fn no_part() -> Part
    ensures { result ≡ no_part }
{
    Part { from: 0, count: 0 }
}

pub fn no_master_call() -> MasterCallWithPart
    ensures { result ≡ no_master_call }
{
    MasterCallWithPart {
        call: None,
        part: no_part(),
    }
}

pub fn no_device_call() -> DeviceCallWithPart
    ensures { result ≡ no_device_call }
{
    DeviceCallWithPart {
        call: DeviceCall::Nothing,
        part: no_part(),
    }
}

fn calls_master(c: MasterCallWithPart) -> bool
    ensures { result ≡ calls_master c.call }
{
    c.call.is_some()
}

fn calls_device(c: DeviceCallWithPart) -> bool
    ensures { result ≡ calls_device c.call }
{
    !matches!(c.call, DeviceCall::Nothing)
}

// The data buffer after what was heard.
#[tactic(auto, using(base::proofs::Choices::choices), unfolding(line::specs::Reader::taken_data))]
pub fn keep(reader: Receiver, heard: Heard, bytes: &mut [u8; 255])
    ensures { bytes.new ≡ taken_data reader heard bytes.old }
{
    match heard {
        Heard::Silence => {}
        Heard::Character(c) | Heard::Damaged(c, _) => line_reader::keep(reader.place, c, bytes),
    }
}

fn is_listening(turn: Turn) -> bool
    ensures { result ≡ is_listening turn }
{
    matches!(turn, Turn::Listens)
}

// How a party's tick goes: it only counts a silent tick, it only hears a character as the line's reader does, or it acts.
#[derive(Clone, Copy)]
pub enum Way {
    Counts,
    Hears,
    Acts,
}

// The line's reader after a tick, built again field by field (docs/BENCHMARKS.md, "The link"), and whether it finds nothing there.
#[derive(Clone, Copy)]
pub struct LineStep {
    pub reader: Receiver,
    pub quiet: bool,
}

fn finds_nothing(event: Event) -> bool
    ensures { result ≡ finds_nothing event }
{
    matches!(event, Event::Nothing)
}

fn step_of(t: Taken) -> LineStep
    ensures { result ≡ step_of t }
{
    LineStep {
        reader: line_reader::copy_receiver(t.receiver),
        quiet: finds_nothing(t.event),
    }
}

// A step of a reader whose data nobody reads.
fn step_apart(r: Receiver, heard: Heard) -> LineStep
    ensures { result ≡ step_of (taken r heard) }
{
    let mut bytes: [u8; 255] = [0; 255];
    step_of(line_reader::take(r, heard, &mut bytes))
}

// A silent tick.
#[tactic(auto, using(base::proofs::Choices::choices), unfolding(line::specs::Reader::taken))]
fn silent_step(r: Receiver) -> LineStep
    ensures { result ≡ step_of (taken r Heard.Silence) }
{
    if line_reader::is_inside(r.place) {
        step_apart(r, Heard::Silence)
    } else {
        LineStep {
            reader: line_reader::idle_reader(),
            quiet: true,
        }
    }
}

// A step of the line's reader, which hears all that the line carries.
#[tactic(auto, using(base::proofs::Choices::choices), unfolding(line::specs::Reader::taken))]
pub fn line_step(r: Receiver, heard: Heard) -> LineStep
    ensures { result ≡ step_of (taken r heard) }
{
    match heard {
        Heard::Silence => silent_step(r),
        Heard::Character(c) => step_of(line_reader::heard_character(r, c)),
        Heard::Damaged(..) => step_apart(r, heard),
    }
}

// A character: whether a party may only hear it, by whether the line's reader finds nothing in it and whether the party's reader equals the line's, known by its flag or by comparison.
fn if_hears(follows: bool, quiet: bool, own: Receiver, reader: Receiver) -> Way
    ensures { result ≡ hears_if follows quiet (same_reader own reader) }
{
    if quiet && (follows || own == reader) {
        Way::Hears
    } else {
        Way::Acts
    }
}

// A silent tick.
fn if_counts(counts: bool) -> Way
    ensures { result ≡ counts_if counts }
{
    if counts { Way::Counts } else { Way::Acts }
}

fn device_counts(d: Device) -> bool
    ensures { result ≡ device_counts d }
{
    !d.burst && !line_reader::is_inside(d.receiver.place) && is_listening(d.turn)
}

// How a device's tick goes. `reader` is the line's before the tick, `quiet` says that it finds nothing in the tick, and `follows` that the device's reader is known to equal it.
#[tactic(auto, using(base::proofs::Choices::choices), unfolding(crate::specs::Ways::device_way))]
pub fn device_way(
    d: Device,
    heard: Heard,
    call: DeviceCallWithPart,
    follows: bool,
    quiet: bool,
    reader: Receiver,
) -> Way
    ensures { result ≡ device_way d heard call.call follows quiet reader }
{
    if d.deaf || calls_device(call) {
        return Way::Acts;
    }
    match heard {
        Heard::Silence => if_counts(device_counts(d)),
        Heard::Character(_) => if_hears(follows, quiet, d.receiver, reader),
        Heard::Damaged(..) => Way::Acts,
    }
}

// A device after a silent tick that it only counts.
pub fn counted_device(d: Device) -> Device
    ensures { result ≡ counted_device d }
{
    Device {
        receiver: line_reader::idle_reader(),
        turn: Turn::Listens,
        due: party::one_less(d.due),
        ..d
    }
}

// A device after a character that it only hears.
pub fn heard_device(d: Device, r: Receiver) -> Device
    ensures { result ≡ heard_device d r }
{
    Device {
        receiver: r,
        turn: Turn::Listens,
        wish: Wish::Same,
        due: 0,
        ..d
    }
}

fn is_free(stage: Stage) -> bool
    ensures { result ≡ is_free stage }
{
    matches!(stage, Stage::Free)
}

fn is_sending(stage: Stage) -> bool
    ensures { result ≡ is_sending stage }
{
    matches!(stage, Stage::Sending(_))
}

fn master_counts(m: Master) -> bool
    ensures { result ≡ master_counts m }
{
    !m.burst && !line_reader::is_inside(m.receiver.place) && is_free(m.message.stage)
}

fn master_character(m: Master, follows: bool, quiet: bool, reader: Receiver) -> Way
    ensures { result ≡ master_character m follows quiet reader }
{
    if is_sending(m.message.stage) {
        Way::Acts
    } else {
        if_hears(follows, quiet, m.receiver, reader)
    }
}

// How a master's tick goes.
#[tactic(auto, using(base::proofs::Choices::choices), unfolding(crate::specs::Ways::master_way))]
pub fn master_way(
    m: Master,
    heard: Heard,
    call: MasterCallWithPart,
    follows: bool,
    quiet: bool,
    reader: Receiver,
) -> Way
    ensures { result ≡ master_way m heard call.call follows quiet reader }
{
    if m.deaf || calls_master(call) {
        return Way::Acts;
    }
    match heard {
        Heard::Silence => if_counts(master_counts(m)),
        Heard::Character(_) => master_character(m, follows, quiet, reader),
        Heard::Damaged(..) => Way::Acts,
    }
}

// A master after a silent tick that it only counts.
pub fn counted_master(m: Master) -> Master
    ensures { result ≡ counted_master m }
{
    master_rules::with_parts(
        m,
        line_reader::idle_reader(),
        m.burst,
        m.noted,
        master_rules::count_clear(m.profile, m.timer),
        m.message,
    )
}

// A master after a character that it only hears.
pub fn heard_master(m: Master, r: Receiver) -> Master
    ensures { result ≡ heard_master m r }
{
    let stopped = master_rules::timer_of(0);
    master_rules::with_parts(m, r, m.burst, m.noted, stopped, m.message)
}

// A master's tick, whose call names its data in what is put.
pub fn master_tick(
    limit: u8,
    m: Master,
    heard: Heard,
    called: MasterCallWithPart,
    put: &[u8],
    frame: &mut [u8; 284],
    bytes: &mut [u8; 255],
) -> MasterTicked
    ensures { MasterIs limit m heard called put.now frame bytes result }
{
    master::tick(
        limit,
        m,
        heard,
        called.call,
        data_of(called.part, put),
        frame,
        bytes,
    )
}

// A device's tick, whose call names its data in what is put.
pub fn device_tick(
    limit: u8,
    d: Device,
    heard: Heard,
    called: DeviceCallWithPart,
    put: &[u8],
    frame: &mut [u8; 284],
    bytes: &mut [u8; 255],
    contents: &mut [u8; 255],
) -> DeviceTicked
    ensures { DeviceIs limit d heard called put.now frame bytes contents result }
{
    device_tick::tick(
        limit,
        d,
        heard,
        called.call,
        data_of(called.part, put),
        contents,
        frame,
        bytes,
    )
}
