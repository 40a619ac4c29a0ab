// The end of a message: its padding, its last block or two, and the digest.
ghost use Rattle.std.specs.Prelude.{◌≡◌, ◌<◌, ◌≤◌, ◌^◌, ◌%◌, length};
ghost use Rattle.sha1_block.specs.Sha1.{bytes_of, digest_of};
ghost use Rattle.sha1_message.specs.Stream.{finish, mark as mark_spec, with_length};

use sha1_block::block::compress;

// The four bytes of a word.
fn bytes(word: u32) -> [u8; 4]
    ensures { result ≡ bytes_of word }
{
    word.to_be_bytes()
}

// The five words as bytes.
fn digest(h: [u32; 5]) -> [u8; 20]
    ensures { result ≡ digest_of h }
{
    let words = h.map(bytes);
    let mut out = [0u8; 20];
    out.copy_from_slice(words.as_flattened());
    out
}

// The length in bits goes into the last eight bytes.
fn with_length(mut block: [u8; 64], n: u64) -> [u8; 64]
    requires { n < 2 ^ 61 }
    ensures { result ≡ with_length block n }
{
    let bits = n * 8;
    block[56..].copy_from_slice(&bits.to_be_bytes());
    block
}

// The first n bytes of the tail, and the mark behind them.
fn mark(tail: &[u8], n: usize) -> [u8; 64]
    requires n_bound { n < 64 }
    requires n_in_bounds { n ≤ length tail.now }
    ensures { result ≡ mark_spec tail.now n }
{
    let mut t = [0u8; 64];
    t[..n].copy_from_slice(&tail[..n]);
    t[n] = 0x80;
    t
}

// The digest of a message of n bytes, from the hash value after its whole blocks and a tail that begins with the bytes behind them.
pub fn close(h: [u32; 5], tail: &[u8], n: u64) -> [u8; 20]
    requires n_bound { n < 2 ^ 61 }
    requires n_in_bounds { n % 64 ≤ length tail.now }
    ensures { result ≡ finish (record { h = h; tail = tail.now; count = n }) }
{
    // `as`, since std has no From of a u64 for usize, and a try_from would have an Err that cannot come.
    let at = (n % 64) as usize;
    let block = mark(tail, at);
    if at < 56 {
        return digest(compress(h, &with_length(block, n)));
    }
    digest(compress(compress(h, &block), &with_length([0u8; 64], n)))
}
