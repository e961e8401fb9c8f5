// The paper of a case, read wholly from its words.
#![tactic(auto)]

pub mod case;
pub mod count;
pub mod fault;
pub mod laws;
pub mod order;
pub mod shown;
pub mod sort;
pub mod state;
