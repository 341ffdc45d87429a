// The fixed limits of every register.

// roles are numbered from 0, at most this many
pub const MAX_ROLES: u32 = 16;
// slots of the repeating clock are numbered from 0, at most this many
pub const MAX_SLOTS: u32 = 32;
// persons are numbered from 1, at most this many
pub const MAX_PERSONS: u32 = 15;
// rules of one register, at most
pub const MAX_RULES: usize = 64;
// permissions of every register, numbered from 0
pub const PERMISSIONS: usize = 32;
// the highest grade of a rule
pub const MAX_GRADE: u32 = 15;
// the last reading of the clock
pub const LAST_TICK: u32 = 1_000_000_000;
// the row that tells in which slots each role is enabled; the others are persons' rows
pub const ENABLED_ROW: u32 = 0;
