// The DC network as a panel stands on it: what papers say, changes of a case, and what holds after any run of calls.
#![tactic(auto)]

pub mod laws;
pub mod theorems;
