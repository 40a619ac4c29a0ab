// SHA-1 for callers that are not Rattle, on numbers and byte slices alone: what the benchmark links.
#![tactic(auto)]

ghost use Rattle.std.specs.Prelude.{◌≡◌, ℕ, ◌<◌, ◌^◌, List, length};
ghost use Rattle.std.specs.Fn.{FnReturnsAt};
ghost use Rattle.sha1_block.specs.Sha1.{sha1};
ghost use Rattle.sha1_exports.specs.Exports.{accepts, digest_in};

use sha1_message::Stream;

// SHA-1 of a slice, a byte at a time, with the state in locals and a place, as it was quickest: `Stream::push_all` takes half as long again here.
fn by_byte(m: &[u8]) -> [u8; 20]
    requires { length m.now < 2 ^ 32 }
    ensures { result ≡ sha1 m.now }
{
    let s = Stream::begin();
    let mut h = s.h;
    let mut tail = s.tail;
    let mut i: usize = 0;
    while i < m.len() {
        // `as`, here and below, since std has no From of a usize for u32; the check sees that no bit is lost.
        let g = sha1_message::join_lent(h, i as u32, &mut tail, m[i]);
        h = g;
        i += 1;
    }
    Stream {
        h,
        tail,
        count: i as u32,
    }
    .finish()
}

// The digest of m goes into out. A bool, as C has it of both exports: answers false, and leaves out alone, where out has not 20 bytes or m has as
// many as the limit.
#[tactic(auto, unfolding(crate::specs::Exports::accepts, crate::specs::Exports::digest_in))]
fn digest_into<F: Fn(&[u8]) -> [u8; 20]>(limit: usize, digest: F, m: &[u8], out: &mut [u8]) -> bool
    requires callable { length m.now < limit → F.pre digest m }
    requires digests { (r : List ℕ) → FnReturnsAt F.Fn digest m.now r → r ≡ sha1 m.now }
    ensures value { result ≡ accepts limit m.now out.old }
    ensures out_after { out.new ≡ digest_in limit m.now out.old }
{
    if out.len() != 20 {
        return false;
    }
    if m.len() >= limit {
        return false;
    }
    out.copy_from_slice(&digest(m));
    true
}

// SHA-1 of m at once, where m has fewer than 2^61 bytes.
#[unsafe(no_mangle)]
pub extern "C" fn sha1_at_once(m: &[u8], out: &mut [u8]) -> bool
    ensures value { result ≡ accepts (2 ^ 61) m.now out.old }
    ensures out_after { out.new ≡ digest_in (2 ^ 61) m.now out.old }
{
    digest_into(1 << 61, sha1_message::hash, m, out)
}

// The same by the stream, a byte at a time, where m has fewer than 2^32 bytes.
#[unsafe(no_mangle)]
pub extern "C" fn sha1_by_byte(m: &[u8], out: &mut [u8]) -> bool
    ensures value { result ≡ accepts (2 ^ 32) m.now out.old }
    ensures out_after { out.new ≡ digest_in (2 ^ 32) m.now out.old }
{
    digest_into(1 << 32, by_byte, m, out)
}
