// Machines with a quadratic cost.
#![tactic(auto)]

pub mod curved;
mod quadratic;
