// Plays a capture (document 02, W1) through the public calls, within a limit on the cycles, and gives each record's answer, their count and the
// word for what is not played.
#![tactic(auto)]

ghost use Rattle.std.specs.Prelude.{◌≡◌};
ghost use Rattle.claims.specs.Calls.{state};
ghost use Rattle.capture_play.specs.Play.{powered, Plays};

use capture::{Scanned, Word, body, scan};
use record::Device;

pub mod records;

use records::play_records;

// What `Scanned` says, and the record then: `Plays` names the three.
#[derive(Clone, Copy)]
pub struct Played {
    pub cycles: usize,
    pub word: Option<Word>,
    pub device: Device,
}

// From any record on. Record i has two bytes of `answers`: 2 * i, the refusal number, and 2 * i + 1, the byte that a read gives, else FFh; bytes for
// which there is no room are left out.
pub fn play_from(
    device: Device,
    capture: &[u8],
    limit: usize,
    answers: &mut [u8],
    write_fifo: &mut [u8],
    read_fifo: &mut [u8],
) -> Played
    ensures { Plays result answers.new write_fifo.new read_fifo.new (state device write_fifo.old read_fifo.old) limit capture.now answers.old }
{
    let Scanned { cycles, word } = scan(capture, limit);
    Played {
        cycles,
        word,
        device: play_records(
            device,
            body(capture),
            cycles,
            answers,
            write_fifo,
            read_fifo,
        ),
    }
}

fn power_on(
    established: bool,
    identity: [u8; 5],
    write_fifo: &mut [u8],
    read_fifo: &mut [u8],
) -> Device
    ensures { state result write_fifo.new read_fifo.new ≡ powered established identity write_fifo.old read_fifo.old }
{
    tis::power_on(established, identity, write_fifo, read_fifo).device
}

// From a power-on with that flag and those identity bytes on.
pub fn play(
    established: bool,
    identity: [u8; 5],
    capture: &[u8],
    limit: usize,
    answers: &mut [u8],
    write_fifo: &mut [u8],
    read_fifo: &mut [u8],
) -> Played
    ensures { Plays result answers.new write_fifo.new read_fifo.new (powered established identity write_fifo.old read_fifo.old) limit capture.now answers.old }
{
    let fresh = power_on(established, identity, write_fifo, read_fifo);
    play_from(fresh, capture, limit, answers, write_fifo, read_fifo)
}
