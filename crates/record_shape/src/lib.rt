// The shape rule (document 01, 'When the front says no', 6) on the parts of the record that it reads, and refusal 2.
#![tactic(auto)]

ghost use Rattle.std.specs.Prelude.{◌≡◌};
ghost use Rattle.record_shape.specs.Shape.{shape_view, view_of, lengths_of, lengths_allowed, idle as idle_spec, phase_fits, hash_fits, in_shape};

use arbiter::access::any_waits;
use arbiter::{Arbiter, LOCALITIES};
use record::limits::{FIFO_GREATEST, FIFO_LEAST, HASH_LIMIT, HEADER};
use record::{Control, Device, HashProgress, Phase, hash_progress};
use reg_layout::HASH_LOCALITY;

// The lengths of the two lent FIFOs.
#[derive(Clone, Copy)]
pub struct Lengths {
    pub write: usize,
    pub read: usize,
}

pub fn lengths_of(write_fifo: &[u8], read_fifo: &[u8]) -> Lengths
    ensures { result ≡ lengths_of write_fifo.now read_fifo.now }
{
    Lengths {
        write: write_fifo.len(),
        read: read_fifo.len(),
    }
}

// What the shape rule reads of a record.
#[derive(Clone, Copy)]
pub struct ShapeView {
    pub arbiter: Arbiter,
    pub phase: Phase,
    pub hash: HashProgress,
}

pub fn shape_view(control: Control, phase: Phase, hash: HashProgress) -> ShapeView
    ensures { result ≡ shape_view control phase hash }
{
    ShapeView {
        arbiter: control.arbiter,
        phase,
        hash,
    }
}

// The same of a whole record.
pub fn view_of(device: &Device) -> ShapeView
    ensures { result ≡ view_of device.now }
{
    shape_view(device.control, device.phase, hash_progress(device.launch))
}

// Not 2: both FIFOs have one allowed length.
#[tactic(auto, unfolding(crate::specs::Shape::lengths_allowed))]
pub fn lengths_allowed(l: Lengths) -> bool
    ensures { result ≡ lengths_allowed l }
{
    (FIFO_LEAST <= l.write) & (l.write <= usize::from(FIFO_GREATEST)) & (l.write == l.read)
}

fn idle(p: Phase) -> bool
    ensures { result ≡ idle_spec p }
{
    matches!(p, Phase::Idle)
}

// The phase beside the sequence, with FIFOs of c bytes, where some locality is active.
fn phase_fits(p: Phase, sequence: bool, c: u16) -> bool
    ensures { result ≡ phase_fits p sequence c }
{
    match p {
        Phase::Idle => true,
        Phase::Ready => !sequence,
        Phase::Reception(n) => !sequence & (1 <= n) & (n <= c),
        Phase::Execution(n) => !sequence & (HEADER <= n) & (n <= c),
        Phase::Completion(n, k) => !sequence & (HEADER <= n) & (n <= c) & (k <= n),
    }
}

// The hash sequence where locality y is active.
fn hash_fits(y: u8, h: HashProgress) -> bool
    ensures { result ≡ hash_fits y h }
{
    if h.sequence {
        return (y == HASH_LOCALITY) & (h.count <= HASH_LIMIT);
    }
    h.count == 0
}

// Not 6, with FIFOs of c bytes. One look at the owner, then at the sequence, then at the phase: every cycle comes through here, and with `&` in
// place of `&&` in the tests above a read of ACCESS takes a twentieth less.
#[tactic(auto, unfolding(crate::specs::Shape::in_shape))]
pub fn in_shape(v: ShapeView, c: u16) -> bool
    ensures { result ≡ in_shape v c }
{
    match v.arbiter.active {
        None => {
            !any_waits(v.arbiter.waiting) & idle(v.phase) & !v.hash.sequence & (v.hash.count == 0)
        }
        Some(y) => {
            // A variable of its own: an index into the view itself keeps all of the view in memory.
            let waiting = v.arbiter.waiting;
            usize::from(y.0) < LOCALITIES
                && !waiting[usize::from(y.0)]
                && hash_fits(y.0, v.hash)
                && phase_fits(v.phase, v.hash.sequence, c)
        }
    }
}
