// Numbers in byte slices.
#![tactic(auto)]

pub mod get; // numbers read from bytes
pub mod put; // bytes written over a slice
pub mod bits; // bits and bytes of a number
pub mod ranges; // ranges of places
pub mod parts; // parts of slices
pub mod compare; // bytes compared
