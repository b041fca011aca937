// The registers of one function: configuration and MSI-X table.
#![tactic(auto)]

pub mod bar;
pub mod clean;
pub mod config;
pub mod masks;
pub mod start;
pub mod table;
pub mod write;
