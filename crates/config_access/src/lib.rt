// Configuration reads and writes.
#![tactic(auto)]

pub mod bounds;
pub mod config_read;
pub mod config_write;
