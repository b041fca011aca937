// Events, the line, and withdrawals.
#![tactic(auto)]

pub mod event;
pub mod line;
pub mod withdraw;
