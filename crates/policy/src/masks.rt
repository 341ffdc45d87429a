ghost use Rattle.std.specs.Prelude.{◌≡◌, ℕ, ◌-◌, ◌^◌, ◌<◌, min, if◌then◌else◌, ◌==◌, nat_eq, nat_lt};
ghost use Rattle.policy.specs.Masks.{bit, inside, apart, shares};

// Masks of roles and schedules of slots are words: bit 0, the least, stands for role 0 or slot 0.

// Whether the bit is set; no word has a bit from 32 on.
#[tactic(auto, using(crate::proofs::Bits::bit_read, crate::proofs::Bits::bit_past_word))]
pub fn has_bit(word: u32, index: u32) -> bool
    ensures { result ≡ bit word index }
{
    index < 32 && (word >> index) & 1 == 1
}

// Whether every bit of `part` is in `whole`.
pub fn is_inside(part: u32, whole: u32) -> bool
    ensures { result ≡ inside part whole }
{
    part & whole == part
}

// Whether the two words have no bit in common.
pub(crate) fn are_apart(a: u32, b: u32) -> bool
    ensures { result ≡ apart a b }
{
    a & b == 0
}

// Whether the two words have a bit in common. One of the two in terms of the other would be no shorter.
pub fn share_bit(a: u32, b: u32) -> bool
    ensures { result ≡ shares a b }
{
    a & b != 0
}

// Whether all bits of the word lie below that index.
#[tactic(auto, using(crate::proofs::Bits::shifted_out, crate::proofs::Bits::below_wide))]
pub(crate) fn fits(word: u32, bits: u32) -> bool
    ensures { result ≡ nat_lt word (2 ^ bits) }
{
    bits >= 32 || word >> bits == 0
}

// The word with the bits of the part set or cleared.
#[tactic(auto, using(crate::proofs::Bits::bit_part_set, crate::proofs::Bits::bit_part_cleared))]
pub fn with_part(word: u32, part: u32, set: bool) -> u32
    ensures { (i : ℕ) → bit result i ≡ (if bit part i then set else bit word i) }
{
    if set { word | part } else { word & !part }
}

// The mask with that bit set or cleared; a bit from 16 on leaves it as it is.
#[tactic(auto, using(crate::proofs::Bits::bit_one_shifted))]
pub fn with_bit(mask: u16, index: u32, set: bool) -> u16
    ensures { (i : ℕ) → i < 16 → bit result i ≡ (if nat_eq i index then set else bit mask i) }
{
    if index >= 16 {
        return mask;
    }
    with_part(u32::from(mask), 1 << index, set) as u16
}

// The mask of all roles below that number, at most 16.
pub fn all_below(roles: u32) -> u16
    ensures { result ≡ 2 ^ min roles 16 - 1 }
{
    ((1u32 << roles.min(16)) - 1) as u16
}
