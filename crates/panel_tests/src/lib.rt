// Panels from tables: what the calls answer, and what is shown.
#![tactic(auto)]

#[cfg(test)]
mod days;
#[cfg(test)]
mod full;
#[cfg(test)]
mod harbour;
#[cfg(test)]
mod readings;
