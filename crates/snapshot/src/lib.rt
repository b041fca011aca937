// Saving and restoring a card.
#![tactic(auto)]

pub mod held;
pub mod restore;
pub mod save;
pub mod typed;
