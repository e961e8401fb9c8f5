// What is printed of each call.
#![tactic(auto)]

pub mod answer;
pub mod laws;
mod line;
