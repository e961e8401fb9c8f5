// The limits of angles, flows and angle differences, row by row.
ghost use Rattle.std.specs.Prelude.{◌≡◌, ◌<◌, true};
ghost use Rattle.measure.specs.Rows.{row_test, Lowest};
ghost use Rattle.judging.specs.Whole.{angle_of, angle_beyond, overloaded, overstretched, overloaded_row, overstretched_row};

use crate::angles::Angles;
use crate::flows::Flows;
use measure::Microradians;
use measure::column::Column;
use measure::range::is_between;
use measure::rows::first_broken;
use network::branch::Branch;

impl<'a, C: Column> Angles<'a, C> {
    // Whether the angle given for the bus in that row is out of range; none is given for the reference. By `is_between`, as for a rating below: both limits
    // are numbers of 64 bits, where `is_beyond` takes 32.
    fn is_out_of_range(&self, row: usize) -> bool
        ensures { result ≡ angle_beyond (C.value self.now.given.now.column) row }
    {
        let limit = Microradians::LIMIT;
        row > 0 && !is_between(-limit, limit, self.given.at(row - 1).0)
    }

    // The lowest bus row whose angle is out of range, or none.
    pub(crate) fn out_of_range(&self) -> Option<usize>
        ensures { Lowest (λ i. (i < self.now.buses) × (angle_beyond (C.value self.now.given.now.column) i ≡ true)) result }
    {
        first_broken(self.buses, |row| self.is_out_of_range(row))
    }
}

impl<'a, 'd, C: Column> Flows<'a, 'd, C> {
    // Whether the branch is in service and carries more than its rating.
    fn exceeds_rating(&self, branch: &Branch) -> bool
        ensures { result ≡ overloaded (angle_of self.now.angles.buses (C.value self.now.angles.given.now.column)) branch.now }
    {
        let rating = branch.rating.0;
        branch.service & (0 < rating) & !is_between(-rating, rating, self.angles.flow(branch))
    }

    // Whether the branch in that row does.
    #[tactic(auto, using(measure::proofs::Sums::row_past))]
    fn is_overloaded(&self, row: usize) -> bool
        ensures { result ≡ row_test (overloaded_row (angle_of self.now.angles.buses (C.value self.now.angles.given.now.column))) self.now.branches.now row }
    {
        let Some(branch) = self.branches.get(row) else {
            return false;
        };
        self.exceeds_rating(branch)
    }

    // The lowest branch row that does, or none.
    pub(crate) fn overloaded(&self) -> Option<usize>
        ensures { Lowest (λ i. (i < self.now.count) × (row_test (overloaded_row (angle_of self.now.angles.buses (C.value self.now.angles.given.now.column))) self.now.branches.now i ≡ true)) result }
    {
        first_broken(self.count, |row| self.is_overloaded(row))
    }

    // Whether the branch is in service and its angle difference breaks its limits. Not the three functions above with this test passed in: their
    // clauses would speak of a closure in place of the limit.
    fn breaks_limits(&self, branch: &Branch) -> bool
        ensures { result ≡ overstretched (angle_of self.now.angles.buses (C.value self.now.angles.given.now.column)) branch.now }
    {
        let difference = self.angles.difference(branch);
        branch.service & !is_between(branch.angmin.0, branch.angmax.0, difference)
    }

    // Whether the branch in that row does.
    #[tactic(auto, using(measure::proofs::Sums::row_past))]
    fn is_overstretched(&self, row: usize) -> bool
        ensures { result ≡ row_test (overstretched_row (angle_of self.now.angles.buses (C.value self.now.angles.given.now.column))) self.now.branches.now row }
    {
        let Some(branch) = self.branches.get(row) else {
            return false;
        };
        self.breaks_limits(branch)
    }

    // The lowest branch row that does, or none.
    pub(crate) fn overstretched(&self) -> Option<usize>
        ensures { Lowest (λ i. (i < self.now.count) × (row_test (overstretched_row (angle_of self.now.angles.buses (C.value self.now.angles.given.now.column))) self.now.branches.now i ≡ true)) result }
    {
        first_broken(self.count, |row| self.is_overstretched(row))
    }
}
