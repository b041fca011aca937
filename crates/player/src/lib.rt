// A log played on a card. What a call gives is defined in specs/.
#![tactic(auto)]

pub mod perform; // the call that a record is: all that meets the card
