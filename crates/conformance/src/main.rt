// Plays the bench sheet of its standard input through the public calls, a line for each cycle that it checks.
#![tactic(auto)]

use conformance_calls::LONGEST;

mod play;

use play::play;

const STDIN_FILENO: i32 = 0;

// The FIFOs hold FFh at first, so that the power-on has something to empty.
fn main(rt: HostRuntime) {
    let mut write_fifo = [0xff; LONGEST];
    let mut read_fifo = [0xff; LONGEST];
    let mut sheet = [0; 65_536];
    // the kit's reader: std's `read_exact` does not say how much came, and its `read_to_end` needs a heap
    let n = io::read_full(STDIN_FILENO, &mut sheet);
    play(&rt, &mut write_fifo, &mut read_fifo, &sheet[..n]);
}
