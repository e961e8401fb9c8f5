// The small harbour, a worked example.
#![tactic(auto)]

pub mod example;
