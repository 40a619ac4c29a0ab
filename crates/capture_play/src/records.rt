// The records of a capture, one after the other.
ghost use Rattle.std.specs.Prelude.{◌*◌, ◌≤◌, length};
ghost use Rattle.claims.specs.Calls.{state};
ghost use Rattle.capture_play.specs.Play.{calls_in, first_calls, Turns, Runs};

use capture::{RECORD_BYTES, cycle_of};
use capture_call::cycle;
use record::Device;
use refusal::number_of;
use text::Page;

// All whole records, each with its answer on the page.
fn turns(mut device: Device, body: &[u8], page: &mut Page, w: &mut [u8], r: &mut [u8]) -> Device
    ensures { Turns result page.old page.new w.new r.new (calls_in body.now) (state device w.old r.old) }
{
    for bytes in body.chunks_exact(RECORD_BYTES) {
        let o = cycle(device, cycle_of(bytes), w, r);
        page.put(&[number_of(o.refusal), o.byte]);
        device = o.device;
    }
    device
}

// The first n.
pub fn play_records(
    device: Device,
    body: &[u8],
    n: usize,
    answers: &mut [u8],
    w: &mut [u8],
    r: &mut [u8],
) -> Device
    requires { 4 * n ≤ length body.now }
    ensures { Runs result answers.new w.new r.new (first_calls n body.now) (state device w.old r.old) answers.old }
{
    let mut page = Page::new(answers);
    turns(device, &body[..RECORD_BYTES * n], &mut page, w, r)
}
