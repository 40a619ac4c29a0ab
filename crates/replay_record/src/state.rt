// The record and the two FIFOs, as the next call finds them.
use crate::decode::device_from;
use crate::encode::put_device;
use record::Device;
use replay_form::LONGEST;
use replay_form::fields::Fields;
use replay_form::output::Output;

// Of each FIFO the bytes in fixed memory, and how many of them are lent, 9,000 at most: a value to copy, as the record is, which the library's
// `ArrayVec` is not.
#[derive(Clone, Copy)]
pub struct State {
    pub device: Device,
    pub write: [u8; LONGEST],
    pub write_length: usize,
    pub read: [u8; LONGEST],
    pub read_length: usize,
}

// There is room for them: a longer FIFO is no call.
fn fill(fifo: &mut [u8; LONGEST], bytes: &[u8]) -> usize {
    let n = bytes.len().min(LONGEST);
    fifo[..n].copy_from_slice(&bytes[..n]);
    n
}

impl State {
    // Before the first call: as a power-on leaves it, with FIFOs of no byte.
    pub fn new() -> State {
        State {
            device: record::fresh_device(false, [0; 5], 0),
            write: [0; LONGEST],
            write_length: 0,
            read: [0; LONGEST],
            read_length: 0,
        }
    }

    // Any record, in shape or not, and any bytes in the FIFOs.
    pub fn load(&mut self, mut args: Fields<'_>) {
        self.device = device_from(&mut args);
        let n = usize::from(args.u16());
        let m = usize::from(args.u16());
        self.write_length = fill(&mut self.write, args.bytes(n));
        self.read_length = fill(&mut self.read, args.bytes(m));
    }

    // In the form that a load takes them.
    pub fn dump(&self, out: &mut Output) {
        let write = &self.write[..self.write_length.min(LONGEST)];
        let read = &self.read[..self.read_length.min(LONGEST)];
        put_device(out, self.device);
        out.put_length(write);
        out.put_length(read);
        out.put(write);
        out.put(read);
    }
}
