ghost use Rattle.std.specs.Prelude.{◌≡◌, ℕ, ◌<◌, ◌&&◌, Bool, false, if◌then◌else◌, nat_eq};
ghost use Rattle.policy.specs.Masks.{bit};

// What one row of a table holds, in whichever way it is kept.
pub trait RowRecord: Copy {
    // Whether the record holds the role in the slot, for a slot below 32 and a role below 16.
    ghost holds: { Self → ℕ → ℕ → Bool };

    // A record that holds nothing.
    fn new() -> Self
        ensures { (slot role : ℕ) → holds result slot role ≡ false };

    // The mask of the roles that the record holds in the slot.
    fn mask(&self, slot: u32) -> u16
        requires slot_in_range { slot < 32 }
        ensures { (role : ℕ) → role < 16 → bit result role ≡ holds self.now slot role };

    // From then on the record holds the role in the slots of the schedule, or does not.
    fn change(&mut self, role: u32, schedule: u32, to: bool)
        requires role_in_range { role < 16 }
        ensures { (slot i : ℕ) → slot < 32 → i < 16
            → holds self.new slot i
            ≡ (if nat_eq i role && bit schedule slot then to else holds self.old slot i) };
}
