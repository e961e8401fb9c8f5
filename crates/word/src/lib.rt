// Words of 32 bits, what is due at each place of a paper, and the reading of papers of fixed length.
#![tactic(auto)]

pub mod amount;
pub mod bytes;
pub mod column;
pub mod fault;
pub mod head;
pub mod kind;
pub mod laws;
pub mod name;
pub mod place;
pub mod range;
pub mod read;
pub mod run;
pub mod slot;
