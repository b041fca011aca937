// What a host in C asks without a call of a card: include/musgarento.h has its functions.
#![tactic(auto)]

pub mod lengths; // the lengths of table and pending array
pub mod packets; // the first of some packets
