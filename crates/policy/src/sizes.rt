ghost use Rattle.std.specs.Prelude.{◌≡◌, ◌^◌, ◌≤◌};

use crate::limits::{MAX_PERSONS, MAX_ROLES, MAX_SLOTS};
use crate::refusal::Refusal;

// How many roles, slots and persons a register has: at least one of each.
#[derive(Debug, Clone, Copy, PartialEq, Eq)]
pub struct Sizes {
    pub roles: u32,
    pub slots: u32,
    pub persons: u32,
    ghost some_role: { 1 ≤ roles },
    ghost few_roles: { roles ≤ 16 },
    ghost some_slot: { 1 ≤ slots },
    ghost few_slots: { slots ≤ 32 },
    ghost some_person: { 1 ≤ persons },
    ghost few_persons: { persons ≤ 15 },
}

impl Sizes {
    ghost use Rattle.policy.specs.Policies.{size_tests};
    ghost use Rattle.policy.specs.Refusals.{first_failing, answered, mapped_ok};
    ghost use Rattle.policy.specs.Sizes.{numbers};

    // One role, one slot and one person.
    pub const LEAST: Sizes = Sizes {
        roles: 1,
        slots: 1,
        persons: 1,
    };

    // So many of each, if that is within the limits.
    pub fn new(roles: u32, slots: u32, persons: u32) -> Result<Sizes, Refusal>
        ensures { mapped_ok numbers result
            ≡ answered (first_failing (size_tests roles slots persons)) (roles, slots, persons) }
    {
        let fit = (1..=MAX_ROLES).contains(&roles)
            && (1..=MAX_SLOTS).contains(&slots)
            && (1..=MAX_PERSONS).contains(&persons);
        if !fit {
            return Err(Refusal::SizeOutOfRange);
        }
        Ok(Sizes {
            roles,
            slots,
            persons,
        })
    }

    // How many masks of roles there are.
    pub fn masks(self) -> usize
        ensures { result ≡ 2 ^ self.roles }
    {
        1 << self.roles
    }
}
