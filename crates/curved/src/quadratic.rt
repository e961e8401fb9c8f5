// Arithmetic of a quadratic cost, within the ranges of a row.
ghost use Rattle.std.specs.Prelude.{◌≡◌, pos, ◌+ℤ◌, ◌*ℤ◌, neg_ℤ, ◌≤ℤ◌};
ghost use Rattle.measure.specs.Range.{Within, floor_div, ceil_div};

use machine::limits::Power;

// A number of millionths as a whole number, rounded down.
fn rounded_down(millionths: i64) -> i64
    requires { Within 5000000000000000000 millionths }
    ensures value { result ≡ floor_div millionths (pos 1000000) }
    ensures size { Within 5000000000000 result }
{
    millionths.div_euclid(1_000_000)
}

// A number of millionths as a whole number, rounded up.
fn rounded_up(millionths: i64) -> i64
    requires { Within 5000000000000000000 millionths }
    ensures value { result ≡ ceil_div millionths (pos 1000000) }
    ensures size { Within 5000000000000 result }
{
    -rounded_down(-millionths)
}

// A cost of 1,000,000 c0 + slope p + c2 p p / 1,000,000 at p watts: a machine's, or what is left of it less a price times p.
#[derive(Clone, Copy)]
pub(crate) struct Quadratic {
    pub c0: i64,
    pub slope: i64,
    pub c2: i64,
    pub ghost fixed: { Within 100000000 c0 },
    pub ghost sloped: { Within 2000000 slope },
    pub ghost convex: { (pos 1 ≤ℤ c2) × (c2 ≤ℤ pos 500) },
}

impl Quadratic {
    // 1,000,000 c0 + slope p.
    fn line_at(self, p: Power) -> i64
        ensures value { result ≡ pos 1000000 *ℤ self.c0 +ℤ self.slope *ℤ p.watts }
        ensures size { Within 300000000000000 result }
    {
        1_000_000 * self.c0 + self.slope * p.watts
    }

    // c2 p p.
    fn square_at(self, p: Power) -> i64
        ensures value { result ≡ self.c2 *ℤ p.watts *ℤ p.watts }
        ensures size { Within 5000000000000000000 result }
    {
        self.c2 * p.watts * p.watts
    }

    // The cost at p, rounded up.
    pub(crate) fn up_at(self, p: Power) -> i64
        ensures { result ≡ pos 1000000 *ℤ self.c0 +ℤ self.slope *ℤ p.watts +ℤ ceil_div (self.c2 *ℤ p.watts *ℤ p.watts) (pos 1000000) }
    {
        self.line_at(p) + rounded_up(self.square_at(p))
    }

    // The cost at p, rounded down. Beside `up_at`, not one with it: each is a line, and its name says which way it goes.
    pub(crate) fn down_at(self, p: Power) -> i64
        ensures { result ≡ pos 1000000 *ℤ self.c0 +ℤ self.slope *ℤ p.watts +ℤ floor_div (self.c2 *ℤ p.watts *ℤ p.watts) (pos 1000000) }
    {
        self.line_at(p) + rounded_down(self.square_at(p))
    }

    // By how many millionths a watt it rises at p.
    pub(crate) fn rise_at(self, p: Power) -> i64
        ensures { result ≡ pos 1000000 *ℤ self.slope +ℤ pos 2 *ℤ self.c2 *ℤ p.watts }
    {
        1_000_000 * self.slope + 2 * self.c2 * p.watts
    }

    // The cost at the power where it is least, rounded down.
    pub(crate) fn least_down(self) -> i64
        ensures { result ≡ pos 1000000 *ℤ self.c0 +ℤ floor_div (neg_ℤ (pos 250000 *ℤ self.slope *ℤ self.slope)) self.c2 }
    {
        let square = 250_000 * self.slope * self.slope;
        1_000_000 * self.c0 + (-square).div_euclid(self.c2)
    }
}
