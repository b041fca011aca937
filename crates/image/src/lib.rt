// Saved images.
#![tactic(auto)]

pub mod format; // mark, version, lengths and offsets
pub mod put; // an image, or a card's bytes, written
pub mod get; // an image, or a card's bytes, read
pub mod buffers; // table and pending array of an image
