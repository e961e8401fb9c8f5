// A branch taken out of service for a while.
ghost use Rattle.std.specs.Prelude.{◌≡◌, ◌<◌, length, take};
ghost use Rattle.measure.specs.Rows.{HoldsAt, Lowest};
ghost use Rattle.names.specs.Names.{HasName};
ghost use Rattle.pricing.specs.Outage.{stations_with, with_mark, without, FlooredWithout};
ghost use Rattle.pricing.specs.Kept.{prices_of};
ghost use Rattle.network.specs.View.{case_of};
ghost use Rattle.network.specs.Floored.{Floored};

use crate::floor::floor;
use machine::machine::Machine;
use measure::Grains;
use measure::column::Column;
use names::branch::BranchName;
use names::list::NameList;
use network::branch::Branch;
use network::bus::Bus;
use network::case::{Case, Machines, first_rows};
use network::prices::Prices;
use network::refusal::Refusal;

// A case but for its branch rows: the tolerance of the balance, the buses, the machines at them, and how many branches it has.
// Tables with counts, as in `Case`. Not the `Case` itself: its branch rows are lent here to be
// changed; and `Case` holds no stations, since most of its readers look for buses or branches alone.
#[derive_where(Clone, Copy)]
pub struct Stations<'a, M, N> {
    pub tolerance: u32,
    pub buses: &'a [Bus],
    pub nb: u8,
    pub first: Machines<'a, M>,
    pub second: Machines<'a, N>,
    pub nl: u8,
}

impl<'a, M, N> Stations<'a, M, N> {
    // The case that these stations make with branch rows.
    pub fn with(self, branches: &'a [Branch]) -> Case<'a, M, N>
        ensures { case_of result ≡ stations_with self.entry branches.now }
    {
        Case {
            tolerance: self.tolerance,
            buses: self.buses,
            nb: self.nb,
            first: self.first,
            second: self.second,
            branches,
            nl: self.nl,
        }
    }
}

// Puts the branch in that row back to its service mark when it ends.
pub(crate) struct Outage<'b> {
    pub(crate) rows: &'b mut [Branch],
    pub(crate) row: usize,
    pub(crate) mark: bool,
}

impl Drop for Outage<'_> {
    fn drop(self)
        requires { self.row < length self.rows.now }
        ensures { self.exit.0.now ≡ with_mark self.entry.rows.now self.entry.row self.entry.mark }
    {
        self.rows[self.row].service = self.mark;
        let Outage {
            rows: _,
            row: _,
            mark: _,
        } = self;
    }
}

impl Outage<'_> {
    // The floor of a price list while the branch is out.
    fn floor<'c, M: Machine, N: Machine, C: Column>(
        &'c self,
        stations: Stations<'c, M, N>,
        prices: &Prices<C>,
    ) -> Result<Grains, Refusal>
        ensures { Floored M.meaning N.meaning (stations_with stations.entry self.now.rows.now) (prices_of C.value prices.now) result }
    {
        floor(&stations.with(self.rows), prices)
    }
}

// The floor of a price list with the branch in that row out of service.
fn floor_out<M: Machine, N: Machine, C: Column>(
    stations: Stations<M, N>,
    branches: &mut [Branch],
    row: usize,
    prices: &Prices<C>,
) -> Result<Grains, Refusal>
    requires { row < length branches.old }
    ensures floored { Floored M.meaning N.meaning (without (stations_with stations.entry branches.old) row) (prices_of C.value prices.now) result }
    ensures unchanged { branches.new ≡ branches.old }
{
    let mark = branches[row].service;
    branches[row].service = false;
    let outage = Outage {
        rows: branches,
        row,
        mark,
    };
    outage.floor(stations, prices)
}

// The lowest of the first rows that has the branch of that name, or none.
fn row_of(branches: &[Branch], count: u8, name: &BranchName) -> Option<usize>
    ensures { Lowest (HoldsAt (HasName ◌≡◌ (λ b. b.name) name.now) (take count branches.now)) result }
{
    let rows = first_rows(branches, count);
    NameList { rows }.find(name)
}

// The floor of a price list with the branch of that name out of service. The branch rows are after it as before, on refusals too.
pub fn floor_without<M: Machine, N: Machine, C: Column>(
    stations: Stations<M, N>,
    branches: &mut [Branch],
    name: BranchName,
    prices: &Prices<C>,
) -> Result<Grains, Refusal>
    ensures floored { FlooredWithout M.meaning N.meaning (stations_with stations.entry branches.old) (prices_of C.value prices.now) name result }
    ensures unchanged { branches.new ≡ branches.old }
{
    // By `let .. else`, the form for a name that is looked up (docs/DECISIONS.md).
    let Some(row) = row_of(branches, stations.nl, &name) else {
        return Err(Refusal::NotInCase);
    };
    floor_out(stations, branches, row, prices)
}
