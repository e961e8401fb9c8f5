// Papers: what each is, read from lent words, and a dispatch written out.
#![tactic(auto)]

pub mod change;
mod columns;
pub mod dispatch;
pub mod hand_over;
pub mod laws;
pub mod prices;
pub mod trial;
pub mod write;
