// What the configuration says: capability list, shape, and the checks of a start.
#![tactic(auto)]

pub mod capability;
pub mod form;
pub mod shape;
pub mod start;
pub mod structure;
