// What every layer shares: the refusals of documents 01 and 02, a range test, and whether two conditions both hold.
#![tactic(auto, using(crate::proofs::Choices::choices))]

ghost use Rattle.std.specs.Prelude.{◌≡◌, false};
ghost use Rattle.base.specs.Choice.{when◌then◌else◌, ◌outside◌to◌};
ghost use Rattle.base.specs.Refusal.{number};

// Why a call is refused. Each has a number in document 01's table; the last ones are document 02's.
#[derive(Clone, Copy)]
pub enum Refusal {
    BadProfile = 1,
    BadRetries = 2,
    PreambleLength = 3,
    Address = 4,
    Command = 5,
    DataLong = 6,
    MessageInHand = 7,
    NoRequest = 8,
    DataLength = 9,
    BurstWish = 10,
    FewPreambles = 11,
    NoDelimiter = 12,
    EndsEarly = 13,
    Unsound = 14,
    BufferShort = 15,
    BadScript = 16,
    Revision = 17,
    BadLoad = 18,
    Register = 19,
    TableFull = 20,
    BadRecording = 21,
    UnequalTaps = 22,
    TapsDiffer = 23,
    RecordSize = 24,
    TickTooLarge = 25,
    WaitTooShort = 26,
}

impl Refusal {
    // The refusal's number in the table.
    pub fn number(self) -> u32
        ensures { result ≡ number self }
    {
        self as u32
    }
}

// Whether x lies outside low to high; both bounds are inside.
pub fn outside(x: usize, low: usize, high: usize) -> bool
    ensures { result ≡ (x outside low to high) }
{
    x < low || high < x
}

// Whether both hold, as a call.
pub fn both(a: bool, b: bool) -> bool
    ensures { result ≡ (when a then b else false) }
{
    a && b
}
