// The C interface: include/musgarento.h has its functions.
#![tactic(auto)]

pub mod bytes; // a card as bytes, for capi_log too
pub mod events;
pub mod hosts;
pub mod images;
pub mod narrow; // wide numbers, for capi_log too
pub mod reads;
pub mod starts;
pub mod withdrawals;
pub mod writes;
