// The C interface of a switch: include/musgarento.h has its functions.
#![tactic(auto)]

mod bytes; // a switch as bytes
pub mod calls; // the functions
