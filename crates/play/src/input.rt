// Reads standard input as far as it decides what is printed.
ghost use Rattle.std.specs.Prelude.{◌≤◌, IfOk, length};

use capture::settled;
use capture_output::CYCLE_LIMIT;
use std::io::{self, Read, Stdin};

// The head, the records within the limit, and the one byte more by which bytes remain: no case needs another.
pub const CAPTURE_BYTES: usize = 40_006;

// Reads until the bytes decide, the input ends, or there is no room: how many came. A read that fails before they decide is an error.
// A `while`, since how many bytes come is known only after each read, and those so far decide whether there is another.
pub fn read_capture(mut stdin: Stdin, capture: &mut [u8]) -> io::Result<usize>
    ensures { IfOk result (λ n. n ≤ length capture.new) }
{
    let mut n = 0;
    while !settled(&capture[..n], CYCLE_LIMIT) {
        let more = stdin.read(&mut capture[n..])?;
        if more == 0 {
            break;
        }
        n += more;
    }
    Ok(n)
}
