ghost use Rattle.std.specs.Prelude.{◌≡◌, ◌==◌};
ghost use Rattle.roster.specs.Holdings.{mask, nothing};
ghost use Rattle.std.proofs.Common.{rules};

use roster::traits::Roster;

// A roster made of two others: both take every change, and the first answers. It shows that a roster which the register
// has never heard of can be put under it, and it lets two rosters be compared while they are used.
#[derive(Drop)]
pub struct Mirror<A, B> {
    first: A,
    second: B,
}

impl<A: Roster, B: Roster> Mirror<A, B> {
    // Both rosters are emptied, so that they agree.
    pub fn new(mut first: A, mut second: B) -> Mirror<A, B>
        ensures first { A.Roster.held result.first ≡ nothing }
        ensures second { B.Roster.held result.second ≡ nothing }
    {
        first.clear();
        second.clear();
        Mirror { first, second }
    }

    // Whether both rosters answer the same for the row in the slot.
    pub fn agree(&self, row: u32, slot: u32) -> bool
        ensures { result ≡ (mask (A.Roster.held self.now.first) row slot == mask
            (B.Roster.held self.now.second) row slot) }
    {
        self.first.mask(row, slot) == self.second.mask(row, slot)
    }
}

impl<A: Roster, B: Roster> Roster for Mirror<A, B> {
    ghost held = { λ mirror. A.Roster.held mirror.first };

    ghost within = { Prim.search rules };

    fn mask(&self, row: u32, slot: u32) -> u16 {
        self.first.mask(row, slot)
    }

    fn add(&mut self, row: u32, role: u32, schedule: u32) {
        self.first.add(row, role, schedule);
        self.second.add(row, role, schedule);
    }

    fn take(&mut self, row: u32, role: u32, schedule: u32) {
        self.first.take(row, role, schedule);
        self.second.take(row, role, schedule);
    }

    fn clear(&mut self) {
        self.first.clear();
        self.second.clear();
    }
}
