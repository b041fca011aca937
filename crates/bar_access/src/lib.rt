// BAR reads and writes.
#![tactic(auto)]

pub mod bar_read;
pub mod bar_write;
pub mod bounds;
pub mod entry;
