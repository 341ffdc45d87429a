use crate::role_schedules::RoleSchedules;
use crate::table::Table;

// A table of rows, each with a schedule of slots for each role.
pub type ScheduleBook = Table<RoleSchedules>;
