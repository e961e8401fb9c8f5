// Files and what is printed of them, from bytes and through readers and writers.
#![tactic(auto)]

#[cfg(test)]
mod fakes;
#[cfg(test)]
mod files;
#[cfg(test)]
mod streams;
#[cfg(test)]
mod words;
