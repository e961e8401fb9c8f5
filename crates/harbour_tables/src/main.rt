// Judges dispatches and price lists on the small harbour, and prints what becomes of each.
#![tactic(auto)]

mod report;
mod tables;

use crate::report::{floor_all, judge_all, refused, try_without};
use crate::tables::{BRANCHES, BUSES, CURVED, STEPPED};
use build::build::lay;
use build::tables::Rows;
use build::view::view;
use measure::Watts;
use network::branch::Branch;
use network::bus::Bus;
use network::case::Machines;
use pricing::outage::Stations;
use std::io;

// The harbour at one tolerance: built from its tables, then each dispatch and each price list.
fn run(rt: &HostRuntime, tolerance: u32) -> io::Result<()> {
    let mut buses = [Bus::BLANK; 2];
    let mut first = [0; 1];
    let mut second = [0; 1];
    let mut branches = [Branch::BLANK; 1];
    let rows = Rows {
        tolerance: Watts(i64::from(tolerance)),
        buses: &BUSES,
        first: &STEPPED,
        second: &CURVED,
        branches: &BRANCHES,
    };
    println!(rt; "tolerance {tolerance}")?;
    let laid = match lay(&rows, &mut buses, &mut first, &mut second, &mut branches) {
        Ok(laid) => laid,
        Err(refusal) => return refused(rt, refusal),
    };
    let case = view(&rows, &buses, &first, &second, &branches, laid);
    judge_all(rt, &case)?;
    floor_all(rt, &case)?;
    let stations = Stations {
        tolerance: laid.tolerance,
        buses: &buses,
        nb: laid.counts.buses,
        first: Machines {
            rows: &STEPPED,
            places: &first,
            count: laid.counts.first,
        },
        second: Machines {
            rows: &CURVED,
            places: &second,
            count: laid.counts.second,
        },
        nl: laid.counts.branches,
    };
    try_without(rt, stations, &mut branches)
}

fn main(rt: HostRuntime) -> io::Result<()> {
    run(&rt, 0)?;
    run(&rt, 1)
}
