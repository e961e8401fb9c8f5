// A client of a panel, as an example: the calls of a day, and a contract that has their run and what stands after it, by the contracts of the calls alone.
#![tactic(auto)]

pub mod day;
