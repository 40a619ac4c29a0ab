// The 80 rounds of FIPS 180-4 on the working variables: four times twenty, and each twenty have one function and one constant.
ghost use Rattle.std.specs.Prelude.{◌≡◌, ℕ, ◌+◌, ◌<◌, ◌≤◌};
ghost use Rattle.sha1_block.specs.Sha1.{f, K, round_by, rounds};

use super::word::{ch, maj, parity};

// The working variables.
#[derive(Clone, Copy)]
pub struct Vars {
    pub a: u32,
    pub b: u32,
    pub c: u32,
    pub d: u32,
    pub e: u32,
}

// One round, from the value of its function, its constant and its word.
fn round(f: u32, k: u32, w: u32, v: Vars) -> Vars
    ensures { result ≡ round_by f k w v }
{
    Vars {
        a: v.a
            .rotate_left(5)
            .wrapping_add(f)
            .wrapping_add(v.e)
            .wrapping_add(k)
            .wrapping_add(w),
        b: v.a,
        c: v.b.rotate_left(30),
        d: v.c,
        e: v.d,
    }
}

// The twenty rounds from round s on, which have one function and one constant; inlined, so that both are known where the loop is.
#[inline(always)]
fn twenty<F: Fn(u32, u32, u32) -> u32>(
    s: usize,
    function: F,
    k: u32,
    w: &[u32; 80],
    v: Vars,
) -> Vars
    requires end { s + 20 ≤ 80 }
    requires callable { F.IsAlwaysCallable function }
    requires values { (t x y z r : ℕ) → s ≤ t → t < s + 20 → F.post function x y z r → r ≡ f t x y z }
    requires constant { (t : ℕ) → s ≤ t → t < s + 20 → k ≡ K t }
    ensures { result ≡ rounds w.now s 20 v }
{
    let mut x = v;
    for word in &w[s..s + 20] {
        x = round(function(x.b, x.c, x.d), k, *word, x);
    }
    x
}

// All 80 rounds.
pub fn rounds(w: &[u32; 80], v: Vars) -> Vars
    ensures { result ≡ rounds w.now 0 80 v }
{
    let x = twenty(0, ch, 0x5a827999, w, v);
    let y = twenty(20, parity, 0x6ed9eba1, w, x);
    let z = twenty(40, maj, 0x8f1bbcdc, w, y);
    twenty(60, parity, 0xca62c1d6, w, z)
}
