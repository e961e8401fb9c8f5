// The floor of a price list, and the floor without a branch.
#![tactic(auto)]

mod charge;
pub mod floor;
mod lawful;
pub mod laws;
pub mod outage;
mod residue;
