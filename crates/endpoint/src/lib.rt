// One function of the card, without the wire.
#![tactic(auto)]

pub mod sound;
pub mod sweep;
