// The floor of a price list.
ghost use Rattle.std.specs.Prelude.{◌≡◌, pos, ◌+ℤ◌, ◌-ℤ◌, ◌*ℤ◌, slice_index};
ghost use Rattle.measure.specs.Range.{Within};
ghost use Rattle.machine.specs.Group.{total_margins};
ghost use Rattle.network.specs.Ranges.{Summed};
ghost use Rattle.network.specs.View.{group_of, case_of};
ghost use Rattle.network.specs.Floor.{price};
ghost use Rattle.pricing.specs.Kept.{prices_of, kept_prices, kept_floor};
ghost use Rattle.network.specs.Floored.{Floored};

use crate::residue::PricedCase;
use machine::group::total_margin;
use machine::machine::Machine;
use measure::Grains;
use measure::column::Column;
use measure::measured::PriceColumn;
use network::case::{Case, Machines};
use network::prices::Prices;
use network::refusal::Refusal;

// The price at each machine's bus. A column, not a closure: a sum of margins is stated of the price in each row, where a closure's answer is a
// relation.
#[derive_where(Clone, Copy)]
struct MachinePrices<'a, 'q, M, N, C, K> {
    priced: PricedCase<'a, 'q, M, N, C>,
    machines: Machines<'a, K>,
}

impl<'a, 'q, M, N, C: Column, K> Column for MachinePrices<'a, 'q, M, N, C, K> {
    ghost value = { λ s i. price (case_of s.priced.case) (kept_prices (prices_of C.value s.priced.prices.now)) (slice_index s.machines.places.now i) };

    fn at(&self, row: usize) -> i64 {
        self.priced.price_at(usize::from(self.machines.place(row)))
    }
}

// What the machines, the buses and the branches make of a floor: a function, so that the ranges within which it fits stand in one place.
fn summed(first: i64, second: i64, buses: i64, tolerance: u32, sizes: i64, charges: i64) -> i64
    requires { Summed first second buses tolerance sizes charges }
    ensures { result ≡ first +ℤ second +ℤ buses -ℤ pos tolerance *ℤ sizes -ℤ charges }
{
    first + second + buses - i64::from(tolerance) * sizes - charges
}

impl<'a, 'q, M, N, C: Column> PricedCase<'a, 'q, M, N, C> {
    // The sum of the margins of a group, each machine at the price of its bus.
    fn margins<K: Machine>(&self, machines: Machines<'a, K>) -> i64
        ensures small { Within 255000000000000000 result }
        ensures exact { result ≡ total_margins K.meaning (group_of machines.entry).machines (λ i. price (case_of self.now.case) (kept_prices (prices_of C.value self.now.prices.now)) ((group_of machines.entry).place i)) }
    {
        let column = MachinePrices {
            priced: *self,
            machines,
        };
        total_margin(machines.used(), &PriceColumn { column }).0
    }
}

impl<'a, 'q, M: Machine, N: Machine, C: Column> PricedCase<'a, 'q, M, N, C> {
    // The floor of the list.
    #[tactic(auto, unfolding(crate::specs::Kept::kept_floor))]
    fn floor(&self) -> i64
        ensures { result ≡ kept_floor M.meaning N.meaning (case_of self.now.case) (kept_prices (prices_of C.value self.now.prices.now)) }
    {
        summed(
            self.margins(self.case.first),
            self.margins(self.case.second),
            self.bus_worths(),
            self.case.tolerance,
            self.price_sizes(),
            self.charges(),
        )
    }
}

// The floor of a price list, or why the list is refused.
pub fn floor<M: Machine, N: Machine, C: Column>(
    case: &Case<M, N>,
    prices: &Prices<C>,
) -> Result<Grains, Refusal>
    ensures { Floored M.meaning N.meaning (case_of case.now) (prices_of C.value prices.now) result }
{
    let priced = PricedCase {
        case: *case,
        prices,
    };
    priced.check()?;
    Ok(Grains(priced.floor()))
}
