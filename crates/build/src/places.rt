// Names resolved to rows of the table of buses.
ghost use Rattle.std.specs.Prelude.{◌≡◌, ◌≤◌, length, MatchOption, MatchResult};
ghost use Rattle.network.specs.declared.refusal.Refusal.TheVariants.{UnknownBus};
ghost use Rattle.build.specs.Offer.{Few, Found, Lacks, EndsUnknown, EndsFound, MachineUnknown, BranchUnknown, Unknown, UnknownRow};
ghost use Rattle.build.specs.Build.{EndsNamed, Matched, Placed, PlacesFound};

use crate::rows::{BranchRow, BusRow};
use crate::tables::{Places, Rows};
use machine::machine::Machine;
use names::branch::BranchName;
use names::list::NameList;
use network::branch::Ends;
use network::refusal::Refusal;
use network::size::{BRANCHES, MACHINES};

// The buses that are offered, as they are found by name: few enough for a row of 8 bits.
#[derive(Drop)]
struct BusNames<'r> {
    rows: &'r [BusRow],
    ghost few: { length rows.now ≤ 100 },
}

impl<'r> BusNames<'r> {
    // The lowest row of a bus with the name, or none.
    fn find(&self, name: u32) -> Option<u8>
        ensures { MatchOption result (Lacks self.now.rows.now name) (λ i. Found self.now.rows.now name i) }
    {
        // Of at most 100 rows, so that 8 bits hold it.
        let row = NameList { rows: self.rows }.find(&name)?;
        Some(row as u8)
    }

    // The rows of the buses that the name gives; refused as that row where one is not there or both are one.
    fn ends_of(&self, name: &BranchName, row: usize) -> Result<Ends, Refusal>
        ensures { MatchResult result (λ e. EndsFound self.now.rows.now name.now.from name.now.to e) (λ e. (e ≡ UnknownBus row) × EndsUnknown self.now.rows.now name.now.from name.now.to) }
    {
        let Some(from) = self.find(name.from) else {
            return Err(Refusal::UnknownBus(row));
        };
        let Some(to) = self.find(name.to) else {
            return Err(Refusal::UnknownBus(row));
        };
        if name.from == name.to {
            return Err(Refusal::UnknownBus(row));
        }
        Ok(Ends { from, to })
    }
}

// The row of each machine's bus, or the refusal of the lowest machine whose bus is not offered; so many rows stand before the group.
fn find_places<M: Machine>(
    buses: &BusNames,
    machines: &[M],
    before: usize,
) -> Result<[u8; MACHINES], Refusal>
    requires few { length machines.now ≤ 30 }
    requires counted { before ≤ 1000 }
    ensures { MatchResult result (Matched (Placed M.meaning buses.now.rows.now) machines.now) (λ e. UnknownRow before (MachineUnknown M.meaning buses.now.rows.now machines.now) e) }
{
    let mut places = [0; MACHINES];
    for (i, machine) in machines.iter().enumerate() {
        let Some(row) = buses.find(machine.bus()) else {
            return Err(Refusal::UnknownBus(before + i));
        };
        places[i] = row;
    }
    Ok(places)
}

// The rows of the buses at both ends of each branch, or the refusal of the lowest branch of which one is not offered or both are one; so many
// rows stand before the branches.
fn find_ends(
    buses: &BusNames,
    branches: &[BranchRow],
    before: usize,
) -> Result<[Ends; BRANCHES], Refusal>
    requires few { length branches.now ≤ 200 }
    requires counted { before ≤ 1000 }
    ensures { MatchResult result (Matched (EndsNamed buses.now.rows.now) branches.now) (λ e. UnknownRow before (BranchUnknown buses.now.rows.now branches.now) e) }
{
    let mut ends = [Ends { from: 0, to: 0 }; BRANCHES];
    for (i, branch) in branches.iter().enumerate() {
        ends[i] = buses.ends_of(&branch.name, before + i)?;
    }
    Ok(ends)
}

// Where the buses that are named stand. Each name is looked up once.
pub(crate) fn find_buses<M: Machine, N: Machine>(rows: &Rows<M, N>) -> Result<Places, Refusal>
    requires { Few rows.now }
    ensures { MatchResult result (PlacesFound M.meaning N.meaning rows.now) (λ e. UnknownRow 0 (Unknown M.meaning N.meaning rows.now) e) }
{
    let buses = BusNames { rows: rows.buses };
    let (first, second) = (rows.first.len(), rows.second.len());
    Ok(Places {
        first: find_places(&buses, rows.first, 0)?,
        second: find_places(&buses, rows.second, first)?,
        ends: find_ends(&buses, rows.branches, first + second)?,
    })
}
