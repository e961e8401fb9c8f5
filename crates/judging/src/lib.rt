// Judging a whole dispatch: its counted cost exactly if it meets the case, else the limit that it breaks.
#![tactic(auto)]

mod angles;
mod balance;
mod flows;
pub mod judge;
mod limits;
