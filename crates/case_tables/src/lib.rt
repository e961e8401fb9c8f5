// A case read from its words into lent tables.
#![tactic(auto)]

pub mod laws;
pub mod read;
mod record;
mod rows;
pub mod view;
mod walk;
