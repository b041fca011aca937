// Start and reset.
#![tactic(auto)]

pub mod reset;
pub mod start;
pub mod started;
