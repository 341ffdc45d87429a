ghost use Rattle.std.specs.Prelude.{◌≡◌, ◌↔◌, IfOk, IsTrue};
ghost use Rattle.policy.specs.Refusals.{answered};
ghost use Rattle.register.specs.Memory.{state_of};
ghost use Rattle.model.specs.Uses.{Uses, may_use, may_refusal};

use crate::in_force::Register;
use policy::limits::{ENABLED_ROW, PERMISSIONS};
use policy::masks::share_bit;
use policy::refusal::Refusal;
use roster::traits::Roster;

impl<R: Roster> Register<R> {
    // Whether the person may use the permission in the slot now.
    pub fn may(&self, person: u32, permission: u32) -> Result<bool, Refusal>
        ensures answer { result ≡ answered (may_refusal (state_of self.now) person permission)
            (may_use (state_of self.now) person permission) }
        ensures uses { IfOk result (λ may. IsTrue may
            ↔ Uses (state_of self.now) person permission) }
    {
        if !(1..=self.table.sizes.persons).contains(&person) {
            return Err(Refusal::BadRow);
        }
        if permission as usize >= PERMISSIONS {
            return Err(Refusal::NoSuchPermission);
        }
        Ok(self.may_use(person, permission))
    }

    fn may_use(&self, person: u32, permission: u32) -> bool
        ensures test { result ≡ may_use (state_of self.now) person permission }
        ensures uses { IsTrue result ↔ Uses (state_of self.now) person permission }
    {
        let slot = self.slot_now();
        let usable = self.mask(person, slot) & self.mask(ENABLED_ROW, slot);
        share_bit(usable as u32, self.table.permission_mask(permission) as u32)
    }
}
