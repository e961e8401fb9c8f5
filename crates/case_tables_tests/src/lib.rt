// Cases of two buses, a machine of each kind and two branches, as words: what is read, and what one wrong name is refused for, and which record is left open.
#![tactic(auto)]

#[cfg(test)]
mod case_words;
#[cfg(test)]
mod cases;
#[cfg(test)]
mod open_words;
