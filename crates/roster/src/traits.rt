ghost use Rattle.std.specs.Prelude.{◌≡◌, ℕ, ◌<◌, Bool, true, false};
ghost use Rattle.roster.specs.Holdings.{Held, mask, nothing, changed, Within};

// A roster keeps which roles each row holds in each slot. Row 0 tells in which slots each role is enabled, the others in
// which slots each person holds it. Row, role and schedule stay three arguments: they are those of the call that is made, and
// a struct for them would only be taken apart again, as a record of a row takes two.
pub trait Roster {
    // The meaning of a roster: for each row, slot and role, held or not.
    ghost held: { Self → Held };

    // The mask of the roles that the row holds in the slot.
    fn mask(&self, row: u32, slot: u32) -> u16
        ensures { result ≡ mask (held self.now) row slot };

    // From then on the row holds the role in the slots of the schedule. `take` is the same with the other outcome; two
    // names, since a flag at each call would say less.
    fn add(&mut self, row: u32, role: u32, schedule: u32)
        ensures { held self.new ≡ changed true row role schedule (held self.old) };

    // From then on the row does not hold the role in the slots of the schedule.
    fn take(&mut self, row: u32, role: u32, schedule: u32)
        ensures { held self.new ≡ changed false row role schedule (held self.old) };

    // From then on nothing is held.
    fn clear(&mut self)
        ensures { held self.new ≡ nothing };

    // Nothing is held in a row or role from 16 on, or in a slot from 32 on.
    ghost within: { (roster : Self) → Within (held roster) };
}
