#![tactic(auto)]

mod acts;
pub mod draft;
pub mod in_force;
mod labels;
pub mod surveys;
mod uses;
