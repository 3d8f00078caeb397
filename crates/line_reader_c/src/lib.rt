// The tick reader for programs in C: a tick of it, with its state as words that the caller lends.
#![tactic(auto)]

ghost use Rattle.line.specs.Heard.{heard_of};
ghost use Rattle.line_reader_c.specs.Tick.{ReaderTicks};

// A tick of the reader that the words stand for; bytes holds the data of the frame being heard.
#[unsafe(no_mangle)]
pub extern "C" fn nengapiko_reader_tick(
    state: &mut [u64; 16],
    bytes: &mut [u8; 255],
    kind: u8,
    character: u8,
    results: &mut [u64; 17],
)
    ensures { ReaderTicks state bytes (heard_of kind character) results }
{
    let heard = line::heard_of(kind, character);
    let taken = line_reader::take(state_words::receiver_at(state, 0), heard, bytes);
    state_words::receiver_fits(taken.receiver);
    *state = state_words::receiver_words(taken.receiver);
    *results = state_words::tick_numbers(0, 0, 0, taken.event);
}
