// The C interface of logs: include/musgarento.h has its functions.
#![tactic(auto)]

mod bytes; // a player as bytes
mod turn; // a call of a player on those bytes
pub mod playing; // a log played
pub mod recording; // a log written
