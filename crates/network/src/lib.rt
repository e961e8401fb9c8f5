// The network in the DC model: buses, branches and machines of two kinds, what a dispatch and a price list are, and what holds of them.
#![tactic(auto)]

pub mod branch;
pub mod bus;
pub mod case;
pub mod dispatch;
pub mod named;
pub mod prices;
pub mod refusal;
pub mod size;
pub mod theorems;
