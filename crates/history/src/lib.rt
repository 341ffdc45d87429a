#![tactic(auto)]

pub mod plan;
pub mod take;
