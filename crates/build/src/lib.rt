// A case built from tables of raw rows: every refusal by its row, and typed tables with each name resolved to a row.
#![tactic(auto)]

pub mod build;
pub mod check;
mod fill;
mod places;
pub mod rows;
mod size;
pub mod tables;
pub mod view;
