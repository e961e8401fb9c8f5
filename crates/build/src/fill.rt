// The tables of a case, written from rows that have passed every test.
ghost use Rattle.std.specs.Prelude.{◌≤◌, List, length, None};
ghost use Rattle.measure.specs.Rows.{Lowest};
ghost use Rattle.build.specs.declared.rows.BusRow.{BusRow};
ghost use Rattle.build.specs.Raw.{BusOf};
ghost use Rattle.build.specs.Offer.{BusOutOfRange, BranchOutOfRange, BranchCrossed};
ghost use Rattle.build.specs.Build.{EndsNamed, Filled, Joined, Matched, Placed};

use crate::rows::{BranchRow, BusRow};
use machine::machine::Machine;
use network::branch::{Branch, Ends};
use network::bus::Bus;

// Writes the buses of the rows. Room is asked for by each of these: it is a fact of two tables, which the type of neither can hold.
// By index, not through `iter_mut` and `zip`: of what an iterator lends, only the length is known once its loan is over.
pub(crate) fn fill_buses(rows: &[BusRow], table: &mut [Bus])
    requires ranges { Lowest (BusOutOfRange rows.now) None }
    requires room { length rows.now ≤ length table.old }
    ensures { Filled BusOf rows.now table.old table.new (length rows.now) }
{
    for (i, row) in rows.iter().enumerate() {
        table[i] = row.bus().unwrap();
    }
}

// Writes the rows in which the machines' buses were found.
pub(crate) fn fill_places<M: Machine>(machines: &[M], places: &[u8], table: &mut [u8])
    requires found { length machines.now ≤ length places.now }
    requires room { length machines.now ≤ length table.old }
    ensures { (buses : List BusRow) → Matched (Placed M.meaning buses) machines.now places.now → Filled (Placed M.meaning buses) machines.now table.old table.new (length machines.now) }
{
    let count = machines.len();
    table[..count].copy_from_slice(&places[..count]);
}

// Writes the branches of the rows, between the buses that were found.
pub(crate) fn fill_branches(rows: &[BranchRow], ends: &[Ends], table: &mut [Branch])
    requires ranges { Lowest (BranchOutOfRange rows.now) None }
    requires uncrossed { Lowest (BranchCrossed rows.now) None }
    requires found { length rows.now ≤ length ends.now }
    requires room { length rows.now ≤ length table.old }
    ensures { (buses : List BusRow) → Matched (EndsNamed buses) rows.now ends.now → Filled (Joined buses) rows.now table.old table.new (length rows.now) }
{
    for (i, row) in rows.iter().enumerate() {
        table[i] = row.branch(ends[i]).unwrap();
    }
}
