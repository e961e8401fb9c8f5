// The papers of a file: its words, where each paper ends, and which call each goes to.
#![tactic(auto)]

pub mod call;
pub mod laws;
pub mod papers;
pub mod words;
