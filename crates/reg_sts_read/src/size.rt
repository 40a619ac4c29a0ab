// The declared size of a command, and when more of it is expected.
ghost use Rattle.std.specs.Prelude.{◌≡◌, ◌<◌, ◌≤◌, ◌^◌, length};
ghost use Rattle.reg_sts_read.specs.Size.{size_field, declared_size, sizes_of, expects_after, expects};

use record::Phase;

// The bytes of a command up to the end of its size.
const SIZE_FIELD: u16 = 6;

#[tactic(auto, unfolding(crate::specs::Size::declared_size))]
pub fn declared_size(w: &[u8]) -> u32
    requires { size_field ≤ length w.now }
    ensures { result ≡ declared_size w.now }
{
    u32::from_be_bytes([w[2], w[3], w[4], w[5]])
}

// What bounds the command in the WriteFIFO: the size that it declares, and C, the FIFO's length.
#[derive(Clone, Copy, PartialEq, Eq, Debug)]
pub struct Sizes {
    pub declared: u32,
    pub fifo: u16,
}

impl Sizes {
    pub fn of(write_fifo: &[u8]) -> Sizes
        requires { (size_field ≤ length write_fifo.now) × (length write_fifo.now < 2 ^ 16) }
        ensures { result ≡ sizes_of write_fifo.now }
    {
        // `as`, since std has no From that narrows; that the length fits is required.
        Sizes {
            declared: declared_size(write_fifo),
            fifo: write_fifo.len() as u16,
        }
    }

    // After n bytes.
    pub fn expects_after(self, n: u16) -> bool
        ensures { result ≡ expects_after n self.declared self.fifo }
    {
        n < SIZE_FIELD || u32::from(n) < self.declared && n < self.fifo
    }

    pub fn expects(self, p: Phase) -> bool
        ensures { result ≡ expects p self.declared self.fifo }
    {
        match p {
            Phase::Reception(n) => self.expects_after(n),
            _ => false,
        }
    }
}
