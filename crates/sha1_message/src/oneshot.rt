// A whole message at once.
ghost use Rattle.std.specs.Prelude.{◌≡◌, ◌++◌, ◌<◌, ◌^◌, length};
ghost use Rattle.sha1_block.specs.Sha1.{sha1};

use super::padding::close;
use sha1_block::block::{FIRST, compress};

// SHA-1 of a slice. `as`, since std has no From of a usize for u64. That the length in bits is below 2^64
// is FIPS 180-4's own: a type for it would ask more of callers here, and the two functions of `padding` are handed it from here and from `finish`.
pub fn hash(m: &[u8]) -> [u8; 20]
    requires { length m.now < 2 ^ 61 }
    ensures { result ≡ sha1 m.now }
{
    let (whole, rest) = m.as_chunks::<64>();
    let h = whole.iter().fold(FIRST, compress);
    close(h, rest, m.len() as u64)
}

// What a PCR becomes when a digest extends it: SHA-1 of the 20 bytes of the one and the 20 of the other.
pub fn extend(pcr: [u8; 20], digest: [u8; 20]) -> [u8; 20]
    ensures { result ≡ sha1 (pcr ++ digest) }
{
    hash([pcr, digest].as_flattened())
}
