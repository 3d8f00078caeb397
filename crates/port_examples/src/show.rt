// Lines of text for what a master and a device of the port do: what a party sent, how the device listens, and what a party heard, found, told its host or refused in a tick.
// The words of what is heard, found and told stand in party_examples too, whose functions have another form; in a library each would have to promise its text, and nothing is promised of what is printed here.
use line::{Damage, Event, Heard, Whole};
use port::Ear;
use std::io;
use turns::{CallResult, DeviceTold, MasterTold, Sent};

// What a party hears in a tick, and whether the script changed it.
#[derive(Clone, Copy)]
pub struct Reception {
    pub heard: Heard,
    pub changed: bool,
}

// What a party can be sending.
#[derive(Clone, Copy, PartialEq, Eq)]
pub enum Kind {
    WakeUp,
    Frame,
}

// What a party is sending, and since when.
#[derive(Clone, Copy)]
pub struct Speech {
    kind: Kind,
    from: u32,
}

// A line of text that is being put together.
#[derive(Drop)]
pub struct Line {
    text: [u8; 4096],
    length: usize,
}

impl Line {
    fn new() -> Line {
        Line {
            text: [0; 4096],
            length: 0,
        }
    }

    // What a line of a party begins with.
    fn of_party(tick: u32, name: &[u8]) -> Line {
        let mut line = Line::new();
        line.put_field(b"  ", tick);
        line.put(name);
        line
    }

    fn put(&mut self, text: &[u8]) {
        self.length = texts::put_bytes(text, &mut self.text, self.length);
    }

    fn put_field(&mut self, name: &[u8], n: u32) {
        self.length = texts::put_field(name, u64::from(n), &mut self.text, self.length);
    }

    fn put_spaced(&mut self, byte: u8) {
        self.length = texts::put_spaced(byte, &mut self.text, self.length);
    }

    fn put_all_spaced(&mut self, bytes: &[u8]) {
        self.length = texts::put_all_spaced(bytes, &mut self.text, self.length);
    }

    fn put_heard(&mut self, heard: Heard) {
        self.put(b" hears ");
        match heard {
            Heard::Silence => self.put(b"silence"),
            Heard::Character(c) => {
                self.put(b"character");
                self.put_spaced(c);
            }
            Heard::Damaged(c, kind) => {
                self.put(damage_name(kind));
                self.put_spaced(c);
            }
        }
    }

    fn put_event(&mut self, event: Event) {
        match event {
            Event::Nothing | Event::PassedOver => {}
            Event::Broken => self.put(b" broken"),
            Event::Frame(_) => self.put(b" whole"),
            Event::Damaged(_, _) => self.put(b" damaged"),
        }
    }

    // Command and data of a frame.
    fn put_frame(&mut self, name: &[u8], w: Whole, bytes: &[u8; 255]) {
        self.put_field(name, u32::from(w.header.command));
        self.put(b" data");
        self.put_all_spaced(texts::front(bytes, usize::from(w.count)));
    }

    fn put_result(&mut self, res: CallResult) {
        if let CallResult::Refused(why) = res {
            self.put_field(b" refused ", why);
        }
    }

    fn print(&self, rt: &impl Print) -> io::Result<()> {
        example_texts::print_line(rt, &self.text, self.length)
    }
}

fn damage_name(kind: Damage) -> &'static [u8] {
    match kind {
        Damage::Parity => b"parity",
        Damage::Overrun => b"overrun",
        Damage::Framing => b"framing",
    }
}

fn frame_kind(sent: Sent) -> Option<Kind> {
    match sent {
        Sent::Silent => None,
        Sent::Character(_) => Some(Kind::Frame),
    }
}

// A line for what ended in the tick before.
fn print_speech(
    rt: &impl Print,
    name: &[u8],
    old: Speech,
    tick: u32,
    frame: &[u8; 284],
) -> io::Result<()> {
    if tick <= old.from {
        return Ok(());
    }
    let count = tick - old.from;
    let mut line = Line::new();
    line.put_field(b"  ", old.from);
    line.put_field(b"-", tick - 1);
    line.put(name);
    match old.kind {
        Kind::WakeUp => line.put_field(b" wake-up ", count),
        Kind::Frame => {
            line.put(b" sends");
            line.put_all_spaced(texts::front(frame, count as usize));
        }
    }
    line.print(rt)
}

fn speaks(
    rt: &impl Print,
    name: &[u8],
    tick: u32,
    kind: Option<Kind>,
    old: Option<Speech>,
    frame: &[u8; 284],
) -> io::Result<Option<Speech>> {
    if old.map(|speech| speech.kind) == kind {
        return Ok(old);
    }
    if let Some(speech) = old {
        print_speech(rt, name, speech, tick, frame)?;
    }
    Ok(kind.map(|kind| Speech { kind, from: tick }))
}

// What the master is sending; a character that is sent during a wake-up belongs to it.
pub fn master_speech(
    rt: &impl Print,
    tick: u32,
    sent: Sent,
    wake: Option<u16>,
    old: Option<Speech>,
    frame: &[u8; 284],
) -> io::Result<Option<Speech>> {
    let kind = match wake {
        None => frame_kind(sent),
        Some(_) => Some(Kind::WakeUp),
    };
    speaks(rt, b" master", tick, kind, old, frame)
}

// What the device is sending.
pub fn device_speech(
    rt: &impl Print,
    tick: u32,
    sent: Sent,
    old: Option<Speech>,
    frame: &[u8; 284],
) -> io::Result<Option<Speech>> {
    speaks(rt, b" device", tick, frame_kind(sent), old, frame)
}

// What a device begins to do where it listens in another way than in the tick before.
fn ear_change(before: Ear, after: Ear) -> Option<&'static [u8]> {
    match (before, after) {
        (Ear::Awake, Ear::Awake)
        | (Ear::PassesOver(_), Ear::PassesOver(_))
        | (Ear::Dozes(_, _), Ear::Dozes(_, _)) => None,
        (_, Ear::Awake) => Some(b" reads"),
        (_, Ear::Dozes(_, _)) => Some(b" dozes"),
        (Ear::Dozes(_, _), Ear::PassesOver(_)) => Some(b" wakes"),
        (Ear::Awake, Ear::PassesOver(_)) => Some(b" passes over"),
    }
}

// A line for a change of how the device listens.
pub fn show_ear(rt: &impl Print, tick: u32, before: Ear, after: Ear) -> io::Result<()> {
    if let Some(change) = ear_change(before, after) {
        let mut line = Line::of_party(tick, b" device");
        line.put(change);
        line.print(rt)?;
    }
    Ok(())
}

// What a party tells its host.
pub trait Told {
    // Puts it into a line.
    fn put(self, bytes: &[u8; 255], line: &mut Line);
}

impl Told for MasterTold {
    fn put(self, bytes: &[u8; 255], line: &mut Line) {
        match self {
            MasterTold::Nothing => {}
            MasterTold::Answered(w) => line.put_frame(b" answered ", w, bytes),
            MasterTold::GivenUp(attempts) => line.put_field(b" given up ", u32::from(attempts)),
            MasterTold::BroadcastSent => line.put(b" broadcast sent"),
        }
    }
}

impl Told for DeviceTold {
    fn put(self, bytes: &[u8; 255], line: &mut Line) {
        match self {
            DeviceTold::Nothing => {}
            DeviceTold::Request(w) => line.put_frame(b" request ", w, bytes),
            DeviceTold::Broadcast(w) => line.put_frame(b" broadcast ", w, bytes),
        }
    }
}

// A line for a party that hears what the script changed, finds something, tells its host something or refuses its call in this tick.
pub fn show_party<T: Told>(
    rt: &impl Print,
    tick: u32,
    name: &[u8],
    input: Reception,
    event: Event,
    told: T,
    res: CallResult,
    bytes: &[u8; 255],
) -> io::Result<()> {
    let mut line = Line::of_party(tick, name);
    let begun = line.length;
    if input.changed {
        line.put_heard(input.heard);
    }
    line.put_event(event);
    told.put(bytes, &mut line);
    line.put_result(res);
    if begun < line.length {
        line.print(rt)?;
    }
    Ok(())
}
