// The papers of files.
#![tactic(auto)]

#[cfg(test)]
mod papers;
#[cfg(test)]
mod words;
