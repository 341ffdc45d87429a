#![tactic(auto)]

pub mod grid;
mod limits;
mod role_schedules;
mod row;
pub mod row_record;
pub mod schedule_book;
pub mod table;
pub mod traits;
