// Plays a capture of its standard input and prints what document 02, W1, says of it; docs/PLAY.md has the form.
#![tactic(auto)]

use capture_output::put_output;
use std::io::Write;

mod fault;
mod input;

use fault::Fault;
use input::{CAPTURE_BYTES, read_capture};

// The longest output has 50,020 bytes: 10,000 lines of five, budget, and cycles 10000.
const TEXT_BYTES: usize = 65_536;

fn run(rt: &HostRuntime, capture: &mut [u8], text: &mut [u8]) -> Result<(), Fault> {
    let came = read_capture(rt.stdin(), capture).map_err(|_| Fault::Input)?;
    let printed = put_output(&capture[..came], text);
    rt.stdout()
        .write_all(&text[..printed])
        .map_err(|_| Fault::Output)
}

// An input or output that fails gets one line, by one write.
fn main(rt: HostRuntime) {
    let mut capture = [0; CAPTURE_BYTES];
    let mut text = [0; TEXT_BYTES];
    if let Err(fault) = run(&rt, &mut capture, &mut text) {
        let _ = eprintln!(rt; "play: {fault}");
    }
}
