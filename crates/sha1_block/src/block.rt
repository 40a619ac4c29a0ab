// One block of a message: its schedule of 80 words, and the hash value that it leads to.
ghost use Rattle.std.specs.Prelude.{◌≡◌};
ghost use Rattle.sha1_block.specs.Sha1.{schedule, compress_of};

use super::rounds::{Vars, rounds};

// The initial hash value.
pub const FIRST: [u32; 5] = [0x67452301, 0xefcdab89, 0x98badcfe, 0x10325476, 0xc3d2e1f0];

// The block's own sixteen words; under w.iter_mut().zip(..) the iterator has w, and no invariant can say what is in it.
fn first_words(block: &[u8; 64]) -> [u32; 80]
    ensures { result ≡ schedule block.now 16 }
{
    let mut w = [0u32; 80];
    for (t, bytes) in block.as_chunks::<4>().0.iter().enumerate() {
        w[t] = u32::from_be_bytes(*bytes);
    }
    w
}

// The whole schedule; each word is made of four before it, so the loop counts their places.
fn schedule(block: &[u8; 64]) -> [u32; 80]
    ensures { result ≡ schedule block.now 80 }
{
    let mut w = first_words(block);
    for t in 16..80 {
        w[t] = (w[t - 3] ^ w[t - 8] ^ w[t - 14] ^ w[t - 16]).rotate_left(1);
    }
    w
}

// The hash value after one more block.
pub fn compress(h: [u32; 5], block: &[u8; 64]) -> [u32; 5]
    ensures { result ≡ compress_of h block.now }
{
    let [a, b, c, d, e] = h;
    let v = rounds(&schedule(block), Vars { a, b, c, d, e });
    [
        a.wrapping_add(v.a),
        b.wrapping_add(v.b),
        c.wrapping_add(v.c),
        d.wrapping_add(v.d),
        e.wrapping_add(v.e),
    ]
}
