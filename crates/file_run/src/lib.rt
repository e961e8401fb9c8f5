// A panel run by the papers of a file: from the file's bytes to all that is printed.
#![tactic(auto)]

mod answers;
mod papers;
pub mod run;
