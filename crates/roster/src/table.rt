ghost use Rattle.std.specs.Prelude.{◌≡◌, ℕ, ◌<◌, true, false, ◌≢◌};
ghost use Rattle.roster.specs.Holdings.{mask, nothing, changed};
ghost use Rattle.roster.specs.Tables.{row_at, table_held};
ghost use Rattle.std.proofs.Common.{rules};

use crate::limits::ROWS;
use crate::row_record::RowRecord;
use crate::traits::Roster;
use policy::limits::{MAX_ROLES, MAX_SLOTS};

// A table of rows, each with a record of what it holds.
#[derive(Drop)]
pub struct Table<T> {
    rows: [T; ROWS],
}

impl<T: RowRecord> Table<T> {
    // A table that holds nothing.
    pub fn new() -> Table<T>
        ensures { table_held T.holds result ≡ nothing }
    {
        Table {
            rows: [T::new(); ROWS],
        }
    }

    // From then on the row holds the role in the slots of the schedule, or does not; a row or a role from 16 on changes
    // nothing.
    pub fn change(&mut self, row: u32, role: u32, schedule: u32, to: bool)
        ensures meaning { table_held T.holds self.new
            ≡ changed to row role schedule (table_held T.holds self.old) }
        ensures others { (r : ℕ) → (r ≢ row) → row_at self.new r ≡ row_at self.old r }
        ensures outside { (row < 16 → role < 16 → ⊥) → self.new ≡ self.old }
    {
        let row = row as usize;
        if row < ROWS && role < MAX_ROLES {
            self.change_row(row, role, schedule, to);
        }
    }

    // The mask that the record of a row gives.
    fn row_mask(&self, row: usize, slot: u32) -> u16
        requires row_in_range { row < 16 }
        requires slot_in_range { slot < 32 }
        ensures { result ≡ mask (table_held T.holds self.now) row slot }
    {
        self.rows[row].mask(slot)
    }

    // Lends out the record of one row, which alone is changed.
    fn change_row(&mut self, row: usize, role: u32, schedule: u32, to: bool)
        requires row_in_range { row < 16 }
        requires role_in_range { role < 16 }
        ensures meaning { table_held T.holds self.new
            ≡ changed to row role schedule (table_held T.holds self.old) }
        ensures others { (r : ℕ) → (r ≢ row) → row_at self.new r ≡ row_at self.old r }
    {
        let record = &mut self.rows[row];
        record.change(role, schedule, to);
    }
}

impl<T: RowRecord> Roster for Table<T> {
    ghost held = { table_held T.holds };

    ghost within = { Prim.search rules };

    #[tactic(auto, using(crate::proofs::Tables::table_past))]
    fn mask(&self, row: u32, slot: u32) -> u16 {
        let row = row as usize;
        if row < ROWS && slot < MAX_SLOTS {
            self.row_mask(row, slot)
        } else {
            0
        }
    }

    fn add(&mut self, row: u32, role: u32, schedule: u32) {
        self.change(row, role, schedule, true);
    }

    fn take(&mut self, row: u32, role: u32, schedule: u32) {
        self.change(row, role, schedule, false);
    }

    fn clear(&mut self) {
        *self = Table::new();
    }
}
