#![tactic(auto)]

pub mod roster_pair;
#[cfg(test)]
mod tests;
