// What is printed for a capture (document 02, W1): it is played within its limit, and each record's answer, the word and the count are put into a
// lent slice.
#![tactic(auto)]

ghost use Rattle.text.specs.Text.{Puts};
ghost use Rattle.capture_output.specs.Output.{output};

use capture_play::play;
use capture_text::put_text;

// The most cycles that are played.
pub const CYCLE_LIMIT: usize = 10_000;

// Two bytes for each.
const ANSWER_BYTES: usize = 2 * CYCLE_LIMIT;

// C.
const FIFO_BYTES: usize = 1024;

pub fn put_output(capture: &[u8], out: &mut [u8]) -> usize
    ensures { Puts out.old 0 (output capture.now) out.new result }
{
    let mut answers = [0; ANSWER_BYTES];
    let mut write_fifo = [0; FIFO_BYTES];
    let mut read_fifo = [0; FIFO_BYTES];
    let p = play(
        false,
        [0; 5],
        capture,
        CYCLE_LIMIT,
        &mut answers,
        &mut write_fifo,
        &mut read_fifo,
    );
    put_text(out, &answers, p.word, p.cycles)
}
