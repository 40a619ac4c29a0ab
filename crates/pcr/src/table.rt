// Who may reset and who may extend which PCR: a table of locality masks for each, and the questions asked of them.
ghost use Rattle.std.specs.Prelude.{◌≡◌};
ghost use Rattle.pcr.specs.Permission.{in_mask, by_mask, permission as permission_spec, may_reset, may_extend};

use crate::{PCRS, PcrIndex, Permission};
use arbiter::{LOCALITIES, Locality, Page};
use bits::is_set;
use refusal::Refusal;

// Document 01 names the form ('Code places and language forms'): a table of 24 masks for each question, in which locality k is bit k.
const RESET_LOCALITIES: [u8; PCRS] = [
    0b00000, // 0
    0b00000, // 1
    0b00000, // 2
    0b00000, // 3
    0b00000, // 4
    0b00000, // 5
    0b00000, // 6
    0b00000, // 7
    0b00000, // 8
    0b00000, // 9
    0b00000, // 10
    0b00000, // 11
    0b00000, // 12
    0b00000, // 13
    0b00000, // 14
    0b00000, // 15
    0b11111, // 16
    0b10000, // 17
    0b10000, // 18
    0b10000, // 19
    0b10100, // 20
    0b00100, // 21
    0b00100, // 22
    0b11111, // 23
];

const EXTEND_LOCALITIES: [u8; PCRS] = [
    0b11111, // 0
    0b11111, // 1
    0b11111, // 2
    0b11111, // 3
    0b11111, // 4
    0b11111, // 5
    0b11111, // 6
    0b11111, // 7
    0b11111, // 8
    0b11111, // 9
    0b11111, // 10
    0b11111, // 11
    0b11111, // 12
    0b11111, // 13
    0b11111, // 14
    0b11111, // 15
    0b11111, // 16
    0b11100, // 17
    0b11100, // 18
    0b01100, // 19
    0b01110, // 20
    0b00100, // 21
    0b00100, // 22
    0b11111, // 23
];

// A PCR above 23 or a locality above 4.
const REFUSED: Permission = Permission {
    refusal: Some(Refusal::Question),
    allowed: false,
};

// Public, with a contract for any mask: what a bit says is not the tables' affair.
pub fn in_mask(mask: u8, x: Page) -> bool
    ensures { result ≡ in_mask mask x.locality.0 }
{
    is_set(mask, x.locality.0)
}

// Both questions differ in the table only.
#[tactic(auto, unfolding(crate::specs::Permission::permission))]
fn permission(masks: [u8; PCRS], p: PcrIndex, x: Locality) -> Permission
    ensures { result ≡ permission_spec (by_mask masks) p.0 x.0 }
{
    let i = usize::from(p.0);
    if PCRS <= i {
        return REFUSED;
    }
    if LOCALITIES <= usize::from(x.0) {
        return REFUSED;
    }
    Permission {
        refusal: None,
        allowed: in_mask(masks[i], Page { locality: x }),
    }
}

#[tactic(auto, using(crate::proofs::MaskTable::by_masks), unfolding(crate::specs::Permission::may_reset, crate::specs::Permission::permission_table))]
pub fn may_reset(p: PcrIndex, x: Locality) -> Permission
    ensures { result ≡ permission_spec may_reset p.0 x.0 }
{
    permission(RESET_LOCALITIES, p, x)
}

#[tactic(auto, using(crate::proofs::MaskTable::by_masks), unfolding(crate::specs::Permission::may_extend, crate::specs::Permission::permission_table))]
pub fn may_extend(p: PcrIndex, x: Locality) -> Permission
    ensures { result ≡ permission_spec may_extend p.0 x.0 }
{
    permission(EXTEND_LOCALITIES, p, x)
}
