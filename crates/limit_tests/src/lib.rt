// What judging a dispatch and the floor of a price list answer at their limits and one beside.
#![tactic(auto)]

#[cfg(test)]
mod dispatches;
#[cfg(test)]
mod floors;
#[cfg(test)]
mod setting;
