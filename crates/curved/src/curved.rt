// A machine with a quadratic cost.
ghost use Rattle.std.specs.Prelude.{◌≡◌, ◌-ℤ◌};
ghost use Rattle.curved.specs.Quadratic.{Ranges, in_range, least_over, curved_meaning};
ghost use Rattle.curved.specs.Keeping.{curved_lawful};

use crate::quadratic::Quadratic;
use machine::limits::{self, FIXED_COST_LIMIT, MOST_BEND, Power};
use machine::machine::Machine;
use measure::price::Price;
use measure::range::is_between;
use measure::{Grains, Watts};

// It may run at every power from lo to hi. Its cost at p watts is 1,000,000 c0 + c1 p + c2 p p / 1,000,000 grains per hour. Any numbers may stand in a
// row: one that breaks a range stands idle.
#[derive(Clone, Copy, PartialEq, Eq, Debug, Default)]
pub struct Curved {
    pub bus: u32,
    pub lo: Watts,
    pub hi: Watts,
    pub c0: i64,
    pub c1: i64,
    pub c2: i64,
}

impl Curved {
    // Whether the row keeps its ranges and its limits are not crossed.
    pub fn is_in_range(&self) -> bool
        ensures { result ≡ in_range self.now }
    {
        limits::are_in_range(self.bus, self.lo, self.hi)
            & is_between(-FIXED_COST_LIMIT, FIXED_COST_LIMIT, self.c0)
            & is_between(-Price::LIMIT, Price::LIMIT, self.c1)
            & is_between(1, MOST_BEND, self.c2)
    }

    // Its cost less q × power. Ranges are asked for, not held by the type: any numbers may stand in a row.
    fn less(&self, q: Price) -> Quadratic
        requires { Ranges self.now }
        ensures fixed { result.c0 ≡ self.now.c0 }
        ensures slope { result.slope ≡ self.now.c1 -ℤ q.value }
        ensures square { result.c2 ≡ self.now.c2 }
    {
        Quadratic {
            c0: self.c0,
            slope: self.c1 - q.get(),
            c2: self.c2,
        }
    }

    // The least of cost - q × power over the machine's limits, rounded down.
    fn least_margin(&self, q: Price) -> i64
        requires { Ranges self.now }
        ensures { result ≡ least_over self.now (q.value -ℤ self.now.c1) }
    {
        let net = self.less(q);
        let lo = Power { watts: self.lo.0 };
        let hi = Power { watts: self.hi.0 };
        if 0 <= net.rise_at(lo) {
            net.down_at(lo)
        } else if net.rise_at(hi) <= 0 {
            net.down_at(hi)
        } else {
            net.least_down()
        }
    }
}

impl Machine for Curved {
    ghost meaning = { curved_meaning };

    ghost lawful = { λ m. curved_lawful m };

    fn bus(&self) -> u32 {
        self.bus
    }

    fn allows(&self, p: Watts) -> bool {
        limits::allow(self.is_in_range(), self.lo, self.hi, p)
    }

    // In each kind, not once for all: a cost passed as a closure would have to state that it is called in range.
    fn cost(&self, p: Watts) -> Option<Grains> {
        if !self.allows(p) {
            None
        } else if self.is_in_range() {
            let p = Power { watts: p.0 };
            Some(Grains(self.less(Price::zero()).up_at(p)))
        } else {
            Some(Grains(0))
        }
    }

    // In each kind, as the cost.
    fn margin(&self, q: Price) -> Grains {
        if self.is_in_range() {
            Grains(self.least_margin(q))
        } else {
            Grains(0)
        }
    }
}
