// The tick reader: in each tick it takes what is heard, and tells what became of a frame.
#![tactic(auto, using(base::proofs::Choices::choices), unfolding(line::specs::Reader::silent_inside, line::specs::Reader::at_idle, line::specs::Reader::at_preamble, line::specs::Reader::at_first, line::specs::Reader::at_address, line::specs::Reader::at_expansion, line::specs::Reader::at_command, line::specs::Reader::at_count, line::specs::Reader::at_data, line::specs::Reader::at_check, line::specs::Reader::taken, line::specs::Reader::taken_data, base::specs::Store::stored))]

ghost use Rattle.std.specs.Prelude.{Some, ◌≡◌};
ghost use Rattle.line.specs.Reader.{blank, idle, passing, breaks, gapped, silent_inside, inside_frame, silence, tells, next, at_idle, begins, at_preamble, behind_address, first_header, at_first, address_header, at_address, at_expansion, command_header, at_command, counted, at_count, at_data, is_damaged, ended, at_check, character, address_damaged, kind_damaged, marked, damaged, kept_byte, kept, ReaderTakeIs};

use frame::{Delimiter, Header};
use line::{Damage, Event, FrameDamage, Heard, Place, Receiver, Taken, Whole};

// The next two give what they take, field by field, for the run of a link, which holds many readers: a struct that is copied as a block, with the unused bytes between its fields, stays in memory there; built again field by field, its fields stay in registers. The tick reader itself is faster with plain copies.
fn copy_header(h: Header) -> Header
    ensures { result ≡ h }
{
    Header {
        kind: h.kind,
        long: h.long,
        primary: h.primary,
        burst: h.burst,
        address: h.address,
        command: h.command,
    }
}

pub fn copy_receiver(r: Receiver) -> Receiver
    ensures { result ≡ r }
{
    Receiver {
        header: copy_header(r.header),
        place: r.place,
        expansion: r.expansion,
        count: r.count,
        sum: r.sum,
        damage: FrameDamage {
            parity: r.damage.parity,
            overrun: r.damage.overrun,
            framing: r.damage.framing,
            address: r.damage.address,
            check: r.damage.check,
        },
        gap: r.gap,
    }
}

// A reader at a place, which holds nothing of a frame.
fn blank_at(place: Place) -> Receiver
    ensures { result ≡ blank place }
{
    Receiver {
        header: Header {
            kind: 0,
            long: false,
            primary: false,
            burst: false,
            address: 0,
            command: 0,
        },
        place,
        expansion: 0,
        count: 0,
        sum: 0,
        damage: FrameDamage {
            parity: false,
            overrun: false,
            framing: false,
            address: false,
            check: false,
        },
        gap: false,
    }
}

// A reader before a frame.
pub fn idle_reader() -> Receiver
    ensures { result ≡ idle }
{
    blank_at(Place::Idle)
}

// A reader that passes over characters until a silent tick: at its start, after its own sending and after a broken frame.
pub fn passing_reader() -> Receiver
    ensures { result ≡ passing }
{
    blank_at(Place::Passing)
}

// A frame that a character breaks.
fn broken() -> Taken
    ensures { result ≡ breaks }
{
    Taken {
        receiver: passing_reader(),
        event: Event::Broken,
    }
}

// A reader that goes on, and tells nothing.
fn goes_on(r: Receiver) -> Taken
    ensures { result ≡ tells r Event.Nothing }
{
    Taken {
        receiver: r,
        event: Event::Nothing,
    }
}

// The reader after a silent tick that is passed over.
pub fn gapped_reader(r: Receiver) -> Receiver
    ensures { result ≡ gapped r }
{
    Receiver { gap: true, ..r }
}

// A silent tick inside a frame: one is passed over, the second in a row breaks the frame.
fn silent_inside(r: Receiver) -> Taken
    ensures { result ≡ silent_inside r }
{
    if r.gap {
        Taken {
            receiver: idle_reader(),
            event: Event::Broken,
        }
    } else {
        goes_on(gapped_reader(r))
    }
}

// Inside a frame: from its first 0xFF on, up to its check byte.
pub fn is_inside(place: Place) -> bool
    ensures { result ≡ inside_frame place }
{
    !matches!(place, Place::Passing | Place::Idle)
}

// A silent tick.
fn silent(r: Receiver) -> Taken
    ensures { result ≡ silence r }
{
    if is_inside(r.place) {
        silent_inside(r)
    } else {
        goes_on(idle_reader())
    }
}

// The reader with one more character of the frame, at its next place.
fn to_next(r: Receiver, h: Header, place: Place, c: u8) -> Taken
    ensures { result ≡ next r h place c }
{
    goes_on(Receiver {
        header: h,
        place,
        sum: r.sum ^ c,
        gap: false,
        ..r
    })
}

fn at_idle(c: u8) -> Taken
    ensures { result ≡ at_idle c }
{
    if c == 0xFF {
        goes_on(blank_at(Place::Preamble(1)))
    } else {
        broken()
    }
}

// A frame that a delimiter begins.
fn begun(c: u8, d: Delimiter) -> Taken
    ensures { result ≡ begins c (Some d) }
{
    let blank = blank_at(Place::First);
    goes_on(Receiver {
        header: Header {
            kind: d.kind,
            long: d.long,
            ..blank.header
        },
        expansion: d.expansion,
        sum: c,
        ..blank
    })
}

fn at_delimiter(c: u8, delimiter: Option<Delimiter>) -> Taken
    ensures { result ≡ begins c delimiter }
{
    match delimiter {
        None => broken(),
        Some(d) => begun(c, d),
    }
}

fn at_preamble(n: u8, c: u8) -> Taken
    ensures { result ≡ at_preamble n c }
{
    if c == 0xFF {
        goes_on(blank_at(Place::Preamble(2)))
    } else if n < 2 {
        broken()
    } else {
        at_delimiter(c, frame::delimiter_of(c))
    }
}

// The place behind the address.
fn behind_address(r: Receiver) -> Place
    ensures { result ≡ behind_address r }
{
    if r.expansion == 0 {
        Place::Command
    } else {
        Place::Expansion(r.expansion)
    }
}

fn first_header(h: Header, c: u8) -> Header
    ensures { result ≡ first_header h c }
{
    Header {
        primary: c / 128 == 1,
        burst: c / 64 % 2 == 1,
        address: u64::from(c % 64),
        ..h
    }
}

fn at_first(r: Receiver, c: u8) -> Taken
    ensures { result ≡ at_first r c }
{
    let header = first_header(r.header, c);
    if r.header.long {
        to_next(r, header, Place::Address(4), c)
    } else {
        to_next(r, header, behind_address(r), c)
    }
}

fn address_header(h: Header, c: u8) -> Header
    ensures { result ≡ address_header h c }
{
    Header {
        address: h.address % 4294967296 * 256 + u64::from(c),
        ..h
    }
}

fn at_address(r: Receiver, n: u8, c: u8) -> Taken
    ensures { result ≡ at_address r n c }
{
    let header = address_header(r.header, c);
    if 1 < n {
        to_next(r, header, Place::Address(n - 1), c)
    } else {
        to_next(r, header, behind_address(r), c)
    }
}

fn at_expansion(r: Receiver, n: u8, c: u8) -> Taken
    ensures { result ≡ at_expansion r n c }
{
    if 1 < n {
        to_next(r, r.header, Place::Expansion(n - 1), c)
    } else {
        to_next(r, r.header, Place::Command, c)
    }
}

fn command_header(h: Header, c: u8) -> Header
    ensures { result ≡ command_header h c }
{
    Header { command: c, ..h }
}

fn at_command(r: Receiver, c: u8) -> Taken
    ensures { result ≡ at_command r c }
{
    to_next(r, command_header(r.header, c), Place::Count, c)
}

fn with_count(r: Receiver, c: u8, place: Place) -> Taken
    ensures { result ≡ counted r c place }
{
    to_next(Receiver { count: c, ..r }, r.header, place, c)
}

fn at_count(r: Receiver, c: u8) -> Taken
    ensures { result ≡ at_count r c }
{
    if frame::too_few(r.header.kind, c as usize) {
        broken()
    } else if c == 0 {
        with_count(r, c, Place::Check)
    } else {
        with_count(r, c, Place::Data(0))
    }
}

fn at_data(r: Receiver, n: u8, c: u8) -> Taken
    ensures { result ≡ at_data r n c }
{
    if u16::from(n) + 1 < u16::from(r.count) {
        to_next(r, r.header, Place::Data(n + 1), c)
    } else {
        to_next(r, r.header, Place::Check, c)
    }
}

fn is_damaged(m: FrameDamage) -> bool
    ensures { result ≡ is_damaged m }
{
    m.parity || m.overrun || m.framing || m.check || m.address
}

fn ended_as(w: Whole, m: FrameDamage) -> Event
    ensures { result ≡ ended w m }
{
    if is_damaged(m) {
        Event::Damaged(w, m)
    } else {
        Event::Frame(w)
    }
}

fn at_check(r: Receiver, c: u8) -> Taken
    ensures { result ≡ at_check r c }
{
    let whole = Whole {
        header: r.header,
        expansion: r.expansion,
        count: r.count,
    };
    let damage = FrameDamage {
        check: r.sum ^ c != 0,
        ..r.damage
    };
    Taken {
        receiver: idle_reader(),
        event: ended_as(whole, damage),
    }
}

// A character.
pub fn heard_character(r: Receiver, c: u8) -> Taken
    ensures { result ≡ character r.place r c }
{
    match r.place {
        Place::Passing => passes_over(),
        Place::Idle => at_idle(c),
        Place::Preamble(n) => at_preamble(n, c),
        Place::First => at_first(r, c),
        Place::Address(n) => at_address(r, n, c),
        Place::Expansion(n) => at_expansion(r, n, c),
        Place::Command => at_command(r, c),
        Place::Count => at_count(r, c),
        Place::Data(n) => at_data(r, n, c),
        Place::Check => at_check(r, c),
    }
}

fn passes_over() -> Taken
    ensures { result ≡ tells passing Event.PassedOver }
{
    Taken {
        receiver: passing_reader(),
        event: Event::PassedOver,
    }
}

fn with_damage(r: Receiver, damage: FrameDamage) -> Receiver
    ensures { result ≡ marked r damage }
{
    Receiver { damage, ..r }
}

// Damage in address or expansion bytes.
fn in_address(r: Receiver) -> Receiver
    ensures { result ≡ marked r (address_damaged r.damage) }
{
    let damage = FrameDamage {
        address: true,
        ..r.damage
    };
    with_damage(r, damage)
}

fn of_kind(kind: Damage, m: FrameDamage) -> FrameDamage
    ensures { result ≡ kind_damaged kind m }
{
    match kind {
        Damage::Parity => FrameDamage { parity: true, ..m },
        Damage::Overrun => FrameDamage { overrun: true, ..m },
        Damage::Framing => FrameDamage { framing: true, ..m },
    }
}

// Damage in command, data or check byte.
fn in_contents(r: Receiver, kind: Damage) -> Receiver
    ensures { result ≡ marked r (kind_damaged kind r.damage) }
{
    with_damage(r, of_kind(kind, r.damage))
}

// A damaged character.
fn heard_damage(r: Receiver, c: u8, kind: Damage) -> Taken
    ensures { result ≡ damaged r.place r c kind }
{
    match r.place {
        Place::Passing => passes_over(),
        Place::Idle | Place::Preamble(_) | Place::Count => broken(),
        Place::First => at_first(in_address(r), c),
        Place::Address(n) => at_address(in_address(r), n, c),
        Place::Expansion(n) => at_expansion(in_address(r), n, c),
        Place::Command => at_command(in_contents(r, kind), c),
        Place::Data(n) => at_data(in_contents(r, kind), n, c),
        Place::Check => at_check(in_contents(r, kind), c),
    }
}

// Keeps a data byte at its number in the lent buffer.
fn keep_byte(n: u8, c: u8, bytes: &mut [u8; 255])
    ensures { bytes.new ≡ kept_byte n c bytes.old }
{
    if n < 255 {
        bytes[n as usize] = c;
    }
}

// The data buffer after a character.
pub fn keep(place: Place, c: u8, bytes: &mut [u8; 255])
    ensures { bytes.new ≡ kept place c bytes.old }
{
    if let Place::Data(n) = place {
        keep_byte(n, c, bytes);
    }
}

// A tick: it takes what was heard, and the buffer that holds the data of the frame being heard.
pub fn take(r: Receiver, heard: Heard, bytes: &mut [u8; 255]) -> Taken
    ensures { ReaderTakeIs r heard bytes.old result bytes.new }
{
    match heard {
        Heard::Silence => silent(r),
        Heard::Character(c) => {
            keep(r.place, c, bytes);
            heard_character(r, c)
        }
        Heard::Damaged(c, kind) => {
            keep(r.place, c, bytes);
            heard_damage(r, c, kind)
        }
    }
}
