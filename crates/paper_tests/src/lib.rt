// Tables of words, and what each reader makes of them.
#![tactic(auto)]

#[cfg(test)]
mod cases;
#[cfg(test)]
mod changes;
#[cfg(test)]
mod lists;
#[cfg(test)]
mod row;
#[cfg(test)]
mod words;
