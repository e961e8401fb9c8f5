// Names: kinds of name, rows that have one, and the list of the names of a table's rows.
#![tactic(auto)]

pub mod branch;
pub mod list;
pub mod name;
pub mod number;
