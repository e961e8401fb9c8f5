// Weights of branches and residues of buses.
ghost use Rattle.std.specs.Prelude.{◌≡◌, ◌+ℤ◌, ◌-ℤ◌, ◌*ℤ◌};
ghost use Rattle.measure.specs.Rows.{row_value};
ghost use Rattle.network.specs.Ranges.{Weighed};
ghost use Rattle.network.specs.Floor.{price, weight, pull, residue};
ghost use Rattle.network.specs.View.{case_of};
ghost use Rattle.pricing.specs.Kept.{prices_of, kept_price, kept_angle_price, kept_prices, share};

use measure::AnglePrice;
use measure::column::Column;
use measure::range::{keep, only_if};
use measure::rows::sum;
use network::branch::Branch;
use network::case::Case;
use network::prices::Prices;

// A case and a price list. Prices outside their ranges count as 0.
#[derive_where(Clone, Copy)]
pub(crate) struct PricedCase<'a, 'q, M, N, C> {
    pub(crate) case: Case<'a, M, N>,
    pub(crate) prices: &'q Prices<C>,
}

// A susceptance times the price at the from end, less that at the to end, with the congestion price: a function, so that the ranges within which
// it fits stand in one place.
fn weighed(susceptance: i64, from: i64, to: i64, congestion: i64) -> i64
    requires { Weighed susceptance from to congestion }
    ensures { result ≡ susceptance *ℤ (from -ℤ to +ℤ congestion) }
{
    susceptance * (from - to + congestion)
}

impl<'a, 'q, M, N, C: Column> PricedCase<'a, 'q, M, N, C> {
    // The price at the bus in that row; 0 at a row that the case lacks.
    #[tactic(auto, unfolding(network::specs::Floor::price))]
    pub(crate) fn price_at(&self, row: usize) -> i64
        ensures { result ≡ price (case_of self.now.case) (kept_prices (prices_of C.value self.now.prices.now)) row }
    {
        let price = self.prices.bus.kept(row).get();
        only_if(row < usize::from(self.case.bus_count()), price)
    }

    // The congestion price of the branch in that row.
    pub(crate) fn congestion_at(&self, row: usize) -> i64
        ensures { result ≡ kept_price (C.value self.now.prices.now.congestion.column row) }
    {
        self.prices.congestion.kept(row).get()
    }

    // The angle price of the branch in that row.
    pub(crate) fn angle_price_at(&self, row: usize) -> i64
        ensures { result ≡ kept_angle_price (C.value self.now.prices.now.angle.column row) }
    {
        keep(
            -AnglePrice::LIMIT,
            AnglePrice::LIMIT,
            self.prices.angle.at(row).0,
        )
    }

    // The weight of the branch in that row.
    #[tactic(auto, unfolding(network::specs::Floor::weight))]
    pub(crate) fn weight(&self, row: usize, branch: &Branch) -> i64
        ensures { result ≡ weight (case_of self.now.case) (kept_prices (prices_of C.value self.now.prices.now)) (record { item = branch.now; row = row }) }
    {
        weighed(
            branch.susceptance,
            self.price_at(usize::from(branch.ends.from)),
            self.price_at(usize::from(branch.ends.to)),
            self.congestion_at(row),
        )
    }

    // Its weight and its angle price, where it is in service.
    fn pull(&self, row: usize, branch: &Branch) -> i64
        ensures { result ≡ pull (case_of self.now.case) (kept_prices (prices_of C.value self.now.prices.now)) (record { item = branch.now; row = row }) }
    {
        only_if(
            branch.service,
            self.weight(row, branch) + self.angle_price_at(row),
        )
    }

    // What the branch in that row adds to the residue of the bus; 0 past the last row. By `let .. else`, as in each question of a row: its contract
    // says what each way answers, where that of a `map_or` speaks of its closure.
    #[tactic(auto, using(measure::proofs::Sums::row_past))]
    fn share(&self, bus: usize, row: usize) -> i64
        ensures { result ≡ row_value (share (case_of self.now.case) (kept_prices (prices_of C.value self.now.prices.now)) bus) self.now.case.branches.now row }
    {
        let Some(branch) = self.case.branches.get(row) else {
            return 0;
        };
        branch.ends.leaving(bus, self.pull(row, branch))
    }

    // The residue of the bus in that row.
    pub(crate) fn residue(&self, bus: usize) -> i64
        ensures { result ≡ residue (case_of self.now.case) (kept_prices (prices_of C.value self.now.prices.now)) bus }
    {
        sum(self.case.nl, |row| self.share(bus, row))
    }
}
