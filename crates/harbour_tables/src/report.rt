// What becomes of each dispatch and each price list, in lines.
use crate::tables::{LINE, LISTS, OFFERS, TRIAL};
use curved::curved::Curved;
use judging::judge::judge;
use measure::Grains;
use network::branch::Branch;
use network::case::Case;
use network::refusal::Refusal;
use pricing::floor::floor;
use pricing::outage::{Stations, floor_without};
use std::io;
use stepped::stepped::Stepped;

// A refusal, by its number and place. Not by a `Display` of the refusal: these words are the program's own, and stand only here.
pub(crate) fn refused(rt: &HostRuntime, refusal: Refusal) -> io::Result<()> {
    let number = refusal.number();
    let place = refusal.place();
    println!(rt; "  refused {number} at row {place}")
}

// The figure, or the refusal by its number and place.
fn answer(rt: &HostRuntime, what: &str, answer: Result<Grains, Refusal>) -> io::Result<()> {
    match answer {
        Ok(Grains(figure)) => println!(rt; "  {what} {figure}"),
        Err(refusal) => refused(rt, refusal),
    }
}

// Judges each dispatch. Not one function with `floor_all`: it would take the rows, two words and a closure, and be longer than the two.
pub(crate) fn judge_all(rt: &HostRuntime, case: &Case<Stepped, Curved>) -> io::Result<()> {
    for offer in &OFFERS {
        println!(rt; "dispatch {offer}")?;
        answer(rt, "cost", judge(case, &offer.dispatch()))?;
    }
    Ok(())
}

// The floor of each price list.
pub(crate) fn floor_all(rt: &HostRuntime, case: &Case<Stepped, Curved>) -> io::Result<()> {
    for list in &LISTS {
        println!(rt; "prices {list}")?;
        answer(rt, "floor", floor(case, &list.prices()))?;
    }
    Ok(())
}

// The floor of the price list that is tried without the branch.
pub(crate) fn try_without(
    rt: &HostRuntime,
    stations: Stations<Stepped, Curved>,
    branches: &mut [Branch],
) -> io::Result<()> {
    println!(rt; "prices {TRIAL} without the branch")?;
    answer(
        rt,
        "floor",
        floor_without(stations, branches, LINE, &TRIAL.prices()),
    )
}
