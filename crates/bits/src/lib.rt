// A bit of a byte, read from it and put into it by its number.
#![tactic(auto)]

ghost use Rattle.std.specs.Prelude.{◌≡◌, ◌<◌, ◌≤◌, ◌^◌};
ghost use Rattle.bits.specs.Bits.{bit as bit_spec, is_set, flag_at};

// Bit k of v, as a number. That k is below 8 stays the shift's own `requires`: a type for it would stand around each constant of `reg_layout`, and be
// built for `pcr::in_mask` and `next_owner` all the same.
pub fn bit(v: u8, k: u8) -> u8
    requires { k < 8 }
    ensures { (result ≡ bit_spec k v) × (result ≤ 1) }
{
    (v >> k) % 2
}

pub fn is_set(v: u8, k: u8) -> bool
    requires { k < 8 }
    ensures { result ≡ is_set k v }
{
    bit(v, k) == 1
}

// A flag as bit k of a byte whose other bits are 0. Flags are joined by `+`, as the definitions add them: no bit is in two.
pub fn flag_at(b: bool, k: u8) -> u8
    requires { k < 8 }
    ensures { (result ≡ flag_at k b) × (result ≤ 2 ^ k) }
{
    u8::from(b) << k
}
