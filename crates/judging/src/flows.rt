// What leaves a bus by the branches.
ghost use Rattle.std.specs.Prelude.{◌≡◌, take};
ghost use Rattle.measure.specs.Range.{Within};
ghost use Rattle.measure.specs.Rows.{rows, total, row_value};
ghost use Rattle.judging.specs.Whole.{angle_of, outflow_of, outflow_row};

use crate::angles::Angles;
use measure::column::Column;
use measure::rows::sum;
use network::branch::Branch;

// The branches of a case, so many of the first rows of a table, and the angles at its buses. Counted in 8 bits, as in `Case`, so that what leaves
// a bus is a sum of at most 255.
#[derive_where(Clone, Copy)]
pub(crate) struct Flows<'a, 'd, C> {
    pub(crate) branches: &'a [Branch],
    pub(crate) count: u8,
    pub(crate) angles: Angles<'d, C>,
}

impl<'a, 'd, C: Column> Flows<'a, 'd, C> {
    // What leaves the bus by that branch, less what arrives.
    fn outflow_by(&self, branch: &Branch, bus: usize) -> i64
        ensures { result ≡ outflow_of (angle_of self.now.angles.buses (C.value self.now.angles.given.now.column)) bus branch.now }
    {
        branch.ends.leaving(bus, self.angles.flow(branch))
    }

    // What leaves the bus by the branch in that row, less what arrives; 0 past the last row. By `let .. else`, as in each question of a row: its contract
    // says what each way answers, where that of a `map_or` speaks of its closure.
    #[tactic(auto, using(measure::proofs::Sums::row_past))]
    fn outflow_in(&self, row: usize, bus: usize) -> i64
        ensures { result ≡ row_value (outflow_row (angle_of self.now.angles.buses (C.value self.now.angles.given.now.column)) bus) self.now.branches.now row }
    {
        let Some(branch) = self.branches.get(row) else {
            return 0;
        };
        self.outflow_by(branch, bus)
    }

    // What leaves the bus by all branches, less what arrives.
    pub(crate) fn outflow(&self, bus: usize) -> i64
        ensures small { Within 4080000000000000 result }
        ensures exact { result ≡ total (outflow_row (angle_of self.now.angles.buses (C.value self.now.angles.given.now.column)) bus) (rows (take self.now.count self.now.branches.now)) }
    {
        sum(self.count, |row| self.outflow_in(row, bus))
    }
}
