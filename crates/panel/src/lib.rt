// A panel that judges offered dispatches and price lists: it shows the cheapest dispatch and the highest floor, counts what became of
// each offer and change, and gives attendants the sheet of their watch.
#![tactic(auto)]

mod change;
mod decline;
mod judged;
mod offer;
pub mod opening;
pub mod outcome;
pub mod panel;
mod question;
pub mod reading;
pub mod refusal;
pub mod refused;
mod shown;
pub mod tables;
mod trial;
pub mod watch;
mod watches;
