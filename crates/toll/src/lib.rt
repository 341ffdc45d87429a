#![tactic(auto)]

pub mod acts;
pub mod clock;
pub mod count;
pub mod counted;
pub mod grade;
pub mod limits;
pub mod readings;
pub mod traits;
