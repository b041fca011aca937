// What the calls share: answers, outcomes, soundness, a changed function, and what follows a change.
#![tactic(auto)]

pub mod answer;
pub mod changed;
pub mod outcome;
pub mod settle;
pub mod sound;
