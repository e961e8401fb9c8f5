// What a price list must keep, and the lowest row that breaks it.
ghost use Rattle.std.specs.Prelude.{◌≡◌, not, ◌||◌, pos, neg_ℤ, MatchOption};
ghost use Rattle.measure.specs.Range.{between};
ghost use Rattle.measure.specs.Rows.{row_test, Lowest};
ghost use Rattle.network.specs.View.{case_of};
ghost use Rattle.network.specs.Floor.{residue};
ghost use Rattle.pricing.specs.Kept.{prices_of, kept_prices, bus_price_beyond, branch_price_beyond, unrated, overweight, residue_beyond};
ghost use Rattle.network.specs.Floored.{BusPricesKept, BranchPricesKept, BusPriceBeyond, BranchPriceBeyond, OutOfRangeAt, UnratedRow, WeightBeyond, ResidueBeyond, Checked};

use crate::charge::{RESIDUE_LIMIT, WEIGHT_LIMIT};
use crate::residue::PricedCase;
use measure::AnglePrice;
use measure::column::Column;
use measure::range::is_between;
use measure::rows::first_broken;
use network::refusal::Refusal;

impl<'a, 'q, M, N, C: Column> PricedCase<'a, 'q, M, N, C> {
    // Whether the price of the bus in that row is outside its range.
    fn is_bus_price_beyond(&self, row: usize) -> bool
        ensures { result ≡ bus_price_beyond (prices_of C.value self.now.prices.now) row }
    {
        self.prices.bus.at(row).is_none()
    }

    // Whether the congestion price or the angle price of the branch in that row is outside its range. By `is_between`, as each test of a limit here:
    // a weight's limit needs more than the 32 bits of `is_beyond`.
    fn is_branch_price_beyond(&self, row: usize) -> bool
        ensures { result ≡ branch_price_beyond (prices_of C.value self.now.prices.now) row }
    {
        let angle = self.prices.angle.at(row).0;
        self.prices.congestion.at(row).is_none()
            | !is_between(-AnglePrice::LIMIT, AnglePrice::LIMIT, angle)
    }

    // Whether the branch in that row is in service without a rating and has a congestion price.
    #[tactic(auto, using(measure::proofs::Sums::row_past))]
    fn is_unrated(&self, row: usize) -> bool
        ensures { result ≡ row_test (unrated (prices_of C.value self.now.prices.now)) self.now.case.branches.now row }
    {
        let Some(branch) = self.case.branches.get(row) else {
            return false;
        };
        branch.service & (branch.rating.0 == 0) & (self.prices.congestion.column.at(row) != 0)
    }

    // Whether the branch in that row is in service and its weight too large.
    #[tactic(auto, using(measure::proofs::Sums::row_past))]
    fn is_overweight(&self, row: usize) -> bool
        ensures { result ≡ row_test (overweight (case_of self.now.case) (kept_prices (prices_of C.value self.now.prices.now))) self.now.case.branches.now row }
    {
        let Some(branch) = self.case.branches.get(row) else {
            return false;
        };
        branch.service & !is_between(-WEIGHT_LIMIT, WEIGHT_LIMIT, self.weight(row, branch))
    }

    // Whether the residue of the bus in that row is too large.
    fn is_residue_beyond(&self, row: usize) -> bool
        ensures { result ≡ residue_beyond (case_of self.now.case) (kept_prices (prices_of C.value self.now.prices.now)) row }
    {
        !is_between(-RESIDUE_LIMIT, RESIDUE_LIMIT, self.residue(row))
    }

    // The lowest bus row with a price outside its range, or none.
    fn bus_price_beyond(&self) -> Option<usize>
        ensures { Lowest (BusPriceBeyond (case_of self.now.case) (prices_of C.value self.now.prices.now)) result }
    {
        first_broken(self.case.bus_count(), |row| self.is_bus_price_beyond(row))
    }

    // The lowest branch row with a price outside its range, or none.
    fn branch_price_beyond(&self) -> Option<usize>
        ensures { Lowest (BranchPriceBeyond (case_of self.now.case) (prices_of C.value self.now.prices.now)) result }
    {
        first_broken(
            self.case.branch_count(),
            |row| self.is_branch_price_beyond(row),
        )
    }

    // The lowest row with a price outside its range, of the buses or else of the branches; or none.
    fn price_beyond(&self) -> Option<usize>
        ensures { MatchOption result (BusPricesKept (case_of self.now.case) (prices_of C.value self.now.prices.now) × BranchPricesKept (case_of self.now.case) (prices_of C.value self.now.prices.now)) (OutOfRangeAt (case_of self.now.case) (prices_of C.value self.now.prices.now)) }
    {
        // Not `or_else`, whose contract speaks of its closure, and not of the second search.
        if let Some(row) = self.bus_price_beyond() {
            return Some(row);
        }
        self.branch_price_beyond()
    }

    // The lowest branch row in service without a rating that has a congestion price, or none.
    fn unrated(&self) -> Option<usize>
        ensures { Lowest (UnratedRow (case_of self.now.case) (prices_of C.value self.now.prices.now)) result }
    {
        first_broken(self.case.nl, |row| self.is_unrated(row))
    }

    // The lowest branch row in service whose weight is too large, or none.
    fn overweight(&self) -> Option<usize>
        ensures { Lowest (WeightBeyond (case_of self.now.case) (kept_prices (prices_of C.value self.now.prices.now))) result }
    {
        first_broken(self.case.nl, |row| self.is_overweight(row))
    }

    // The lowest bus row whose residue is too large, or none.
    fn residue_beyond(&self) -> Option<usize>
        ensures { Lowest (ResidueBeyond (case_of self.now.case) (kept_prices (prices_of C.value self.now.prices.now))) result }
    {
        first_broken(self.case.bus_count(), |row| self.is_residue_beyond(row))
    }

    // Whether the list is lawful; if not, the first refusal.
    pub(crate) fn check(&self) -> Result<(), Refusal>
        ensures { Checked (case_of self.now.case) (prices_of C.value self.now.prices.now) result }
    {
        // An `if let` at each limit, since each has a refusal of its own for the row.
        if let Some(row) = self.price_beyond() {
            return Err(Refusal::OutOfRange(row));
        }
        if let Some(row) = self.unrated() {
            return Err(Refusal::Unrated(row));
        }
        if let Some(row) = self.overweight() {
            return Err(Refusal::Weight(row));
        }
        if let Some(row) = self.residue_beyond() {
            return Err(Refusal::Residue(row));
        }
        Ok(())
    }
}
