// The release of waiting vectors: how many bytes they send, and the sending.
#![tactic(auto)]

pub mod bits; // the set bits of a word
pub mod msi; // MSI: the vectors of a word
pub mod entry; // MSI-X: a word of vectors and their table entries
pub mod msix; // MSI-X: the whole pending array
pub mod pending; // MSI-X: the pending array by itself
