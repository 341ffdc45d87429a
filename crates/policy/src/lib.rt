#![tactic(auto)]

pub mod kind;
pub mod limits;
pub mod masks;
pub mod refusal;
pub mod rule;
pub mod sizes;
pub mod table;
pub mod watch;
