// Text put into lent bytes, from the front on, as far as there is room.
#![tactic(auto)]

ghost use Rattle.std.specs.Prelude.{◌≤◌, ◌<◌, ◌≡◌, length};
ghost use Rattle.text.specs.Text.{decimal, hex_digit, hex_byte};

// Bytes that are lent, and how many of them are written, from the front on.
// The place and no shrinking slice: `Puts` speaks of the place. It is no `fmt::Write`: no writer can promise that `write!` gives no Err, of which
// nothing is known.
#[derive(Drop)]
pub struct Page<'a> {
    pub lent: &'a mut [u8],
    pub used: usize,
    ghost within: { used ≤ length lent.now },
}

impl<'a> Page<'a> {
    ghost use Rattle.text.specs.Page.{Gains};

    pub fn new(lent: &'a mut [u8]) -> Page<'a>
        ensures same_reference { result.lent.ghost_name ≡ lent.entry.ghost_name }
        ensures lent { result.lent.now ≡ lent.old }
        ensures used { result.used ≡ 0 }
    {
        Page { lent, used: 0 }
    }

    pub fn put(&mut self, text: &[u8])
        ensures { Gains self.old text.now self.new }
    {
        let n = text.len().min(self.lent.len() - self.used);
        self.lent[self.used..self.used + n].copy_from_slice(&text[..n]);
        self.used += n;
    }

    pub fn put_hex(&mut self, b: u8)
        ensures { Gains self.old (hex_byte b) self.new }
    {
        self.put(&[hex_digit(b / 16), hex_digit(b % 16)]);
    }

    pub fn put_decimal(&mut self, n: u64)
        ensures { Gains self.old (decimal n) self.new }
    {
        let mut digits = [0; 20];
        // The kit's, since nothing says which digits a `write!` of a number puts.
        let k = io::decimal(n, &mut digits);
        self.put(&digits[..k]);
    }
}

// By hand: of the kit's `hex` only what needs an allocator writes upper case.
fn hex_digit(d: u8) -> u8
    requires { d < 16 }
    ensures { result ≡ hex_digit d }
{
    if d < 10 { b'0' + d } else { b'A' + (d - 10) }
}
