// Vectors of one function: the mechanism in force, who is open, waiting bits and messages.
#![tactic(auto)]

pub mod mode; // control bits and the mechanism in force
pub mod granted; // the vectors that MSI is granted
pub mod count; // the vectors of a mechanism
pub mod event; // from events to vectors
pub mod entry; // one entry of the MSI-X table
pub mod pin; // the pin number
pub mod msi; // the open vectors of MSI
pub mod msix; // the open vectors of MSI-X
pub mod open; // a vector of any mechanism
pub mod waiting; // waiting bits
pub mod message; // the message of a vector
