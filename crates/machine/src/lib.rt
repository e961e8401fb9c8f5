// Machines of any kind: the four questions put to each, what the answers mean, and sums over a group.
#![tactic(auto)]

pub mod group;
pub mod limits;
pub mod machine;
