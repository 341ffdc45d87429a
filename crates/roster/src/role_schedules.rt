ghost use Rattle.std.specs.Prelude.{slice_index};
ghost use Rattle.policy.specs.Masks.{bit};

use crate::limits::ROLES;
use crate::row_record::RowRecord;
use policy::masks::{has_bit, with_bit, with_part};

// What one row holds: a schedule of slots for each role.
#[derive(Clone, Copy, Debug, PartialEq, Eq)]
pub struct RoleSchedules {
    schedules: [u32; ROLES],
}

impl RowRecord for RoleSchedules {
    ghost holds = { λ row slot role. bit (slice_index row.schedules role) slot };

    #[tactic(auto, using(policy::proofs::Bits::bit_none, std::proofs::lemmas::Grind::common_steps))]
    fn new() -> RoleSchedules {
        RoleSchedules {
            schedules: [0; ROLES],
        }
    }

    fn mask(&self, slot: u32) -> u16 {
        let mut mask = 0;
        for (role, schedule) in self.schedules.iter().enumerate() {
            mask = with_bit(mask, role as u32, has_bit(*schedule, slot));
        }
        mask
    }

    fn change(&mut self, role: u32, schedule: u32, to: bool) {
        let role = role as usize;
        self.schedules[role] = with_part(self.schedules[role], schedule, to);
    }
}
