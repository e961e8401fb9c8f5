// Tables of what machines of the two kinds answer.
#![tactic(auto)]

pub mod curved_rows;
pub mod group_sums;
pub mod stepped_rows;
pub mod tables;
