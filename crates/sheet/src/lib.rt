// An attendant's sheet: a page of 256 bytes with eight lines of figures.
#![tactic(auto)]

mod figure;
pub mod gap;
pub mod page;
mod pen;
pub mod sheet;
