// What each branch is charged in the floor, and what each bus adds to it.
ghost use Rattle.std.specs.Prelude.{◌≡◌, take, pos, ◌+ℤ◌, ◌-ℤ◌, ◌*ℤ◌, if◌then◌else◌};
ghost use Rattle.std.specs.Int.Signed.{non_neg};
ghost use Rattle.measure.specs.Range.{Within, ∣◌∣};
ghost use Rattle.measure.specs.Rows.{rows, total, row_value};
ghost use Rattle.network.specs.Ranges.{Stretched, Charged, Worth};
ghost use Rattle.network.specs.View.{case_of};
ghost use Rattle.pricing.specs.Kept.{prices_of, kept_prices, kept_charge, bus_worth, price_size};

use crate::residue::PricedCase;
use measure::Microradians;
use measure::column::Column;
use measure::range::{keep, only_if};
use measure::rows::sum;

// Every weight of a branch in service lies within ± this.
pub(crate) const WEIGHT_LIMIT: i64 = 10_000_000_000;

// Every residue lies within ± this.
pub(crate) const RESIDUE_LIMIT: i64 = 1_000_000_000;

// |z|. These four are functions, so that the ranges within which each fits stand in one place.
fn size(z: i64) -> i64
    requires { Within 1000000000 z }
    ensures { result ≡ ∣ z ∣ }
{
    z.abs()
}

// What an angle price charges: it times the limit of the angle difference on its side.
fn stretched(price: i64, low: i64, high: i64) -> i64
    requires { Stretched price low high }
    ensures { result ≡ (if non_neg price then price *ℤ high else price *ℤ low) }
{
    if price >= 0 {
        price * high
    } else {
        price * low
    }
}

// Weight × shift + |congestion price| × rating + what the angle price charges.
fn charged(weight: i64, shift: i64, congestion: i64, rating: i64, angle: i64) -> i64
    requires { Charged weight shift congestion rating angle }
    ensures { result ≡ weight *ℤ shift +ℤ ∣ congestion ∣ *ℤ rating +ℤ angle }
{
    weight * shift + size(congestion) * rating + angle
}

// Price × demand - angle limit × |residue|.
fn worth(price: i64, demand: i64, residue: i64) -> i64
    requires { Worth price demand residue }
    ensures { result ≡ price *ℤ demand -ℤ pos 3200000 *ℤ ∣ residue ∣ }
{
    price * demand - Microradians::LIMIT * size(residue)
}

impl<'a, 'q, M, N, C: Column> PricedCase<'a, 'q, M, N, C> {
    // What the branch in that row is charged; 0 past the last row.
    #[tactic(auto, using(measure::proofs::Sums::row_past))]
    fn charge(&self, row: usize) -> i64
        ensures { result ≡ row_value (kept_charge (case_of self.now.case) (kept_prices (prices_of C.value self.now.prices.now))) self.now.case.branches.now row }
    {
        let Some(branch) = self.case.branches.get(row) else {
            return 0;
        };
        let weight = keep(-WEIGHT_LIMIT, WEIGHT_LIMIT, self.weight(row, branch));
        let angle = stretched(self.angle_price_at(row), branch.angmin.0, branch.angmax.0);
        only_if(
            branch.service,
            charged(
                weight,
                branch.shift.0,
                self.congestion_at(row),
                branch.rating.0,
                angle,
            ),
        )
    }

    // What the bus in that row adds to the floor; 0 past the last row.
    #[tactic(auto, using(measure::proofs::Sums::row_past))]
    fn bus_worth(&self, row: usize) -> i64
        ensures { result ≡ row_value (bus_worth (case_of self.now.case) (kept_prices (prices_of C.value self.now.prices.now))) self.now.case.buses.now row }
    {
        let Some(bus) = self.case.buses.get(row) else {
            return 0;
        };
        let residue = keep(-RESIDUE_LIMIT, RESIDUE_LIMIT, self.residue(row));
        worth(self.price_at(row), bus.demand.0, only_if(0 < row, residue))
    }

    // The size of the price at the bus in that row; 0 past the last row.
    #[tactic(auto, using(crate::proofs::Kept::price_size_row))]
    fn price_size(&self, row: usize) -> i64
        ensures { result ≡ row_value (price_size (case_of self.now.case) (kept_prices (prices_of C.value self.now.prices.now))) self.now.case.buses.now row }
    {
        size(self.price_at(row))
    }

    // What all branches are charged.
    pub(crate) fn charges(&self) -> i64
        ensures small { Within 4268700000000000000 result }
        ensures exact { result ≡ total (kept_charge (case_of self.now.case) (kept_prices (prices_of C.value self.now.prices.now))) (rows (take self.now.case.nl self.now.case.branches.now)) }
    {
        sum(self.case.nl, |row| self.charge(row))
    }

    // What all buses add to the floor.
    pub(crate) fn bus_worths(&self) -> i64
        ensures small { Within 841500000000000000 result }
        ensures exact { result ≡ total (bus_worth (case_of self.now.case) (kept_prices (prices_of C.value self.now.prices.now))) (rows (take self.now.case.nb self.now.case.buses.now)) }
    {
        sum(self.case.nb, |row| self.bus_worth(row))
    }

    // The sum of the sizes of the bus prices.
    pub(crate) fn price_sizes(&self) -> i64
        ensures small { Within 255000000 result }
        ensures exact { result ≡ total (price_size (case_of self.now.case) (kept_prices (prices_of C.value self.now.prices.now))) (rows (take self.now.case.nb self.now.case.buses.now)) }
    {
        sum(self.case.nb, |row| self.price_size(row))
    }
}
