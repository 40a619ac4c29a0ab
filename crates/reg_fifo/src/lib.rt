// The two lent FIFOs (document 01, 'Commands'): cleared, filled with an answer, written and read.
#![tactic(auto)]

ghost use Rattle.std.specs.Prelude.{◌≡◌, ◌≤◌, length};
ghost use Rattle.reg_fifo.specs.declared.FifoAction.TheVariants.{Store};
ghost use Rattle.reg_fifo.specs.Fifo.{clear_fifo, update_write_fifo, update_read_fifo, fifo_byte, after_read};

use record::Phase;

// What happens to the two FIFOs: nothing; both are cleared; the byte written goes to a place of the WriteFIFO; Completion is entered, so the
// WriteFIFO is cleared and the ReadFIFO holds the answer. Keep is an action like the others, and byte and answer go beside the action, as in the
// definitions that the calls' contracts name (`Cycled`, `Answered`).
#[derive(Clone, Copy)]
pub enum FifoAction {
    Keep,
    Clear,
    Store(u16),
    Complete,
}

pub fn clear_fifo(b: &mut [u8])
    ensures { b.new ≡ clear_fifo b.old }
{
    b.fill(0);
}

fn store(w: &mut [u8], n: u16, v: u8)
    ensures { w.new ≡ update_write_fifo (Store n) v w.old }
{
    let place = usize::from(n);
    // No `get_mut`: its contract says nothing of the slice that it leaves.
    if place < w.len() {
        w[place] = v;
    }
}

fn update_write_fifo(f: FifoAction, w: &mut [u8], v: u8)
    ensures { w.new ≡ update_write_fifo f v w.old }
{
    match f {
        FifoAction::Keep => {}
        FifoAction::Clear | FifoAction::Complete => clear_fifo(w),
        FifoAction::Store(n) => store(w, n, v),
    }
}

fn update_read_fifo(f: FifoAction, r: &mut [u8], a: &[u8])
    requires { length a.now ≤ length r.old }
    ensures { r.new ≡ update_read_fifo f a.now r.old }
{
    match f {
        FifoAction::Keep | FifoAction::Store(_) => {}
        FifoAction::Clear => clear_fifo(r),
        // The answer at the front, 00h after it.
        FifoAction::Complete => {
            r[..a.len()].copy_from_slice(a);
            r[a.len()..].fill(0);
        }
    }
}

// What a call does to the FIFOs, with the byte that it writes or the answer that it gives. That the answer has room is what each caller knows; a struct
// of answer and ReadFIFO would have to say, besides, that its loans stay the same.
pub fn update_fifos(f: FifoAction, w: &mut [u8], r: &mut [u8], v: u8, a: &[u8])
    requires { length a.now ≤ length r.old }
    ensures { (w.new ≡ update_write_fifo f v w.old) × (r.new ≡ update_read_fifo f a.now r.old) }
{
    update_write_fifo(f, w, v);
    update_read_fifo(f, r, a);
}

// What a FIFO read of the active locality gives.
pub fn fifo_byte(p: Phase, r: &[u8]) -> u8
    ensures { result ≡ fifo_byte p r.now }
{
    match p {
        Phase::Completion(n, k) if k < n => r.get(usize::from(k)).copied().unwrap_or(0),
        _ => 0xff,
    }
}

// The phase after it.
pub fn after_read(p: Phase) -> Phase
    ensures { result ≡ after_read p }
{
    match p {
        Phase::Completion(n, k) if k < n => Phase::Completion(n, k + 1),
        _ => p,
    }
}
