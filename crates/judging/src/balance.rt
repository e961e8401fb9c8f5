// The balance of power at each bus.
ghost use Rattle.std.specs.Prelude.{◌≡◌, ◌<◌, ℕ, true, ◌+ℤ◌, ◌-ℤ◌, slice_index};
ghost use Rattle.measure.specs.Range.{Within};
ghost use Rattle.measure.specs.Rows.{rows, total, row_value, row_test, Lowest};
ghost use Rattle.network.specs.Ranges.{Nets};
ghost use Rattle.judging.specs.Whole.{angle_of, given_at, mismatch_of, unbalanced};
ghost use Rattle.network.specs.View.{group_of, case_of};

use crate::angles::Angles;
use crate::flows::Flows;
use measure::Watts;
use measure::column::Column;
use measure::measured::PowerColumn;
use measure::range::{is_beyond, keep, only_if};
use measure::rows::{first_broken, sum};
use network::bus::Bus;
use network::case::{Case, Machines};

// A group of machines, and the power of each.
#[derive_where(Clone, Copy)]
pub(crate) struct Injections<'a, 'd, M, C> {
    pub(crate) machines: Machines<'a, M>,
    pub(crate) powers: &'d PowerColumn<C>,
}

impl<'a, 'd, M, C: Column> Injections<'a, 'd, M, C> {
    // What the machine in that row gives at the bus; 0 past the last row.
    #[tactic(auto, using(measure::proofs::Sums::row_past))]
    fn given(&self, row: usize, bus: usize) -> i64
        ensures { result ≡ row_value (given_at (λ i. slice_index self.now.machines.places.now i) (C.value self.now.powers.now.column) bus) self.now.machines.rows.now row }
    {
        if row >= self.machines.rows.len() {
            return 0;
        }
        let power = keep(-Watts::LIMIT, Watts::LIMIT, self.powers.at(row).0);
        only_if(usize::from(self.machines.place(row)) == bus, power)
    }

    // What the group gives at the bus.
    pub(crate) fn total(&self, bus: usize) -> i64
        ensures small { Within 25500000000 result }
        ensures exact { result ≡ total (given_at (group_of self.now.machines).place (C.value self.now.powers.now.column) bus) (rows (group_of self.now.machines).machines) }
    {
        sum(self.machines.count, |row| self.given(row, bus))
    }
}

// What two groups give, less the demand and what flows out: a function, so that the ranges within which it fits stand in one place.
fn net(first: i64, second: i64, demand: i64, outflow: i64) -> i64
    requires { Nets first second demand outflow }
    ensures { result ≡ first +ℤ second -ℤ demand -ℤ outflow }
{
    first + second - demand - outflow
}

// A case under a dispatch.
#[derive_where(Clone, Copy)]
pub(crate) struct Balance<'a, 'd, M, N, C> {
    pub(crate) case: Case<'a, M, N>,
    pub(crate) first: &'d PowerColumn<C>,
    pub(crate) second: &'d PowerColumn<C>,
    pub(crate) angles: Angles<'d, C>,
}

impl<'a, 'd, M, N, C: Column> Balance<'a, 'd, M, N, C> {
    // Machines' power - demand - flows leaving + flows arriving, at the bus in that row.
    fn mismatch(&self, row: usize, bus: &Bus) -> i64
        ensures { result ≡ mismatch_of (case_of self.now.case) (C.value self.now.first.now.column) (C.value self.now.second.now.column) (angle_of self.now.angles.buses (C.value self.now.angles.given.now.column)) (record { item = bus.now; row = row }) }
    {
        let first = Injections {
            machines: self.case.first,
            powers: self.first,
        };
        let second = Injections {
            machines: self.case.second,
            powers: self.second,
        };
        let flows = Flows {
            branches: self.case.branches,
            count: self.case.nl,
            angles: self.angles,
        };
        net(
            first.total(row),
            second.total(row),
            bus.demand.0,
            flows.outflow(row),
        )
    }

    // Whether the bus in that row is out of balance.
    #[tactic(auto, using(measure::proofs::Sums::row_past))]
    fn is_unbalanced(&self, row: usize) -> bool
        ensures { result ≡ row_test (unbalanced (case_of self.now.case) (C.value self.now.first.now.column) (C.value self.now.second.now.column) (angle_of self.now.angles.buses (C.value self.now.angles.given.now.column))) self.now.case.buses.now row }
    {
        let Some(bus) = self.case.buses.get(row) else {
            return false;
        };
        is_beyond(self.case.tolerance, self.mismatch(row, bus))
    }

    // The lowest bus row that is out of balance, or none.
    pub(crate) fn unbalanced(&self) -> Option<usize>
        ensures { Lowest (λ i. (i < self.now.case.nb) × (row_test (unbalanced (case_of self.now.case) (C.value self.now.first.now.column) (C.value self.now.second.now.column) (angle_of self.now.angles.buses (C.value self.now.angles.given.now.column))) self.now.case.buses.now i ≡ true)) result }
    {
        first_broken(self.case.nb, |row| self.is_unbalanced(row))
    }
}
