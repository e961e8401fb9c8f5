// Machines with a cost in straight pieces.
#![tactic(auto)]

mod piecewise;
pub mod stepped;
