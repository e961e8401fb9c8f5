// A machine with a cost in straight pieces.
ghost use Rattle.std.specs.Prelude.{◌≡◌, true, pos, ◌*ℤ◌};
ghost use Rattle.stepped.specs.Piecewise.{in_range, Ranges, powers_of, first, inner, stepped_meaning};
ghost use Rattle.stepped.specs.StepLaw.{OneCost};
ghost use Rattle.stepped.specs.Keeping.{stepped_lawful};

use crate::piecewise::{Line, Pieces, all_between, are_powers};
use machine::limits::{self, FIXED_COST_LIMIT, MOST_POINTS, Power};
use machine::machine::Machine;
use measure::price::Price;
use measure::range::is_between;
use measure::{Grains, Watts};

// It may run at every power from lo to hi. Its cost is c millions of grains per hour at the first of its n points, and from there on goes by its n - 1 slopes: a slope
// in grains per watt-hour for each two neighbouring points in watts, the first and the last going on outside. What stands after them is not used. Any
// numbers may stand in a row: one that breaks a range stands idle. Arrays with a count, in the fixed memory of a lent table; not `ArrayVec`s, since a row that
// breaks its ranges may say a count that no array has.
#[derive(Clone, Copy, PartialEq, Eq, Debug, Default)]
pub struct Stepped {
    pub bus: u32,
    pub lo: Watts,
    pub hi: Watts,
    pub c: i64,
    pub n: usize,
    pub points: [Watts; MOST_POINTS],
    pub slopes: [i64; 7],
}

impl Stepped {
    // Whether the row keeps its ranges and orders. Where it does, its points and slopes tell one cost, and that is its true cost.
    pub fn is_in_range(&self) -> bool
        ensures test { result ≡ in_range self.now }
        ensures cost { result ≡ true → OneCost self.now }
    {
        // Written out, since each half bounds the slices below.
        if self.n < 2 || self.n > MOST_POINTS {
            return false;
        }
        let points = &self.points[0..self.n];
        let slopes = &self.slopes[0..self.n - 1];
        limits::are_in_range(self.bus, self.lo, self.hi)
            & is_between(-FIXED_COST_LIMIT, FIXED_COST_LIMIT, self.c)
            & are_powers(points)
            & points.is_sorted_by(|x, y| x.0 < y.0)
            & all_between(-Price::LIMIT, Price::LIMIT, slopes)
            & slopes.is_sorted_by(|x, y| x <= y)
    }

    // Its cost, along the line of its first slope and then from point to point. Ranges are asked for, as any numbers may stand in a row.
    #[tactic(auto, using(crate::proofs::Powers::head_power, crate::proofs::Powers::inner_powers))]
    fn pieces(&self) -> Pieces<'_>
        requires { Ranges self.now }
        ensures cost { result.line.cost ≡ pos 1000000 *ℤ self.now.c }
        ensures from { result.line.from.watts ≡ first (powers_of self.now.points) }
        ensures slope { result.line.slope ≡ first self.now.slopes }
        ensures points { powers_of result.points.now ≡ inner self.now (powers_of self.now.points) }
        ensures slopes { result.slopes.now ≡ inner self.now self.now.slopes }
    {
        let line = Line {
            cost: 1_000_000 * self.c,
            from: Power {
                watts: self.points[0].0,
            },
            slope: self.slopes[0],
        };
        Pieces {
            line,
            points: &self.points[1..self.n - 1],
            slopes: &self.slopes[1..self.n - 1],
        }
    }
}

impl Machine for Stepped {
    ghost meaning = { stepped_meaning };

    ghost lawful = { λ m. stepped_lawful m };

    fn bus(&self) -> u32 {
        self.bus
    }

    fn allows(&self, p: Watts) -> bool {
        limits::allow(self.is_in_range(), self.lo, self.hi, p)
    }

    // In each kind, not once for all: a cost passed as a closure would have to state that it is called in range.
    fn cost(&self, p: Watts) -> Option<Grains> {
        if !self.allows(p) {
            None
        } else if self.is_in_range() {
            let p = Power { watts: p.0 };
            Some(Grains(self.pieces().at(p)))
        } else {
            Some(Grains(0))
        }
    }

    // In each kind, as the cost.
    fn margin(&self, q: Price) -> Grains {
        if self.is_in_range() {
            let lo = Power { watts: self.lo.0 };
            let hi = Power { watts: self.hi.0 };
            Grains(self.pieces().least(q, lo, hi))
        } else {
            Grains(0)
        }
    }
}
