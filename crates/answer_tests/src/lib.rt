// Answers and the lines that are printed of them.
#![tactic(auto)]

#[cfg(test)]
mod answers;
