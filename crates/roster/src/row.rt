ghost use Rattle.std.specs.Prelude.{slice_index};
ghost use Rattle.policy.specs.Masks.{bit};

use crate::limits::SLOTS;
use crate::row_record::RowRecord;
use policy::masks::{has_bit, with_bit};

// What one row holds: a mask of roles for each slot.
#[derive(Clone, Copy, Debug, PartialEq, Eq)]
pub struct Row {
    masks: [u16; SLOTS],
}

impl RowRecord for Row {
    ghost holds = { λ row slot role. bit (slice_index row.masks slot) role };

    fn new() -> Row {
        Row { masks: [0; SLOTS] }
    }

    fn mask(&self, slot: u32) -> u16 {
        self.masks[slot as usize]
    }

    fn change(&mut self, role: u32, schedule: u32, to: bool) {
        for (slot, mask) in self.masks.iter_mut().enumerate() {
            if has_bit(schedule, slot as u32) {
                *mask = with_bit(*mask, role, to);
            }
        }
    }
}
