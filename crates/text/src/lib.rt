#![tactic(auto)]

pub mod answer;
pub mod command;
pub mod letter;
pub mod line;
mod lines;
mod number;
mod page;
mod pieces;
pub mod reply;
pub mod session;
pub mod word;
