use policy::limits::{MAX_PERSONS, MAX_ROLES, MAX_SLOTS};

// The sizes of a roster's tables.

// the row of what is enabled, and a row for each person
pub const ROWS: usize = MAX_PERSONS as usize + 1;

pub const ROLES: usize = MAX_ROLES as usize;

pub const SLOTS: usize = MAX_SLOTS as usize;
