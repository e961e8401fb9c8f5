// The bus and the limits of a machine that may run at every power between two.
ghost use Rattle.std.specs.Prelude.{◌≡◌, Decides};
ghost use Rattle.measure.specs.Fraction.{whole, Between};
ghost use Rattle.measure.specs.Range.{Within};
ghost use Rattle.machine.specs.Idle.{allowed_if};
ghost use Rattle.machine.specs.Limits.{limits_in_range};

use measure::Watts;
use measure::range::is_between;
use names::number::may_name;

// The part of a cost that no power alters lies within ± this many millions of grains per hour.
pub const FIXED_COST_LIMIT: i64 = 100_000_000;

// The bend of a quadratic cost is 1 to this.
pub const MOST_BEND: i64 = 500;

// A cost in straight pieces has two points or more, up to this many.
pub const MOST_POINTS: usize = 8;

// A power within the widest limits, ±100,000,000 W.
#[derive(Clone, Copy)]
pub struct Power {
    pub watts: i64,
    pub ghost ok: { Within 100000000 watts },
}

// Whether the bus's name and both limits are in range, and the limits are not crossed. Not a method of a type of the three: they are
// numbers of a raw row, where any may stand, so that a type of them would hold no range and be a part of the row again.
pub fn are_in_range(bus: u32, lo: Watts, hi: Watts) -> bool
    ensures { result ≡ limits_in_range bus lo.0 hi.0 }
{
    may_name(bus)
        & is_between(-Watts::LIMIT, Watts::LIMIT, lo.0)
        & is_between(-Watts::LIMIT, Watts::LIMIT, hi.0)
        & (lo.0 <= hi.0)
}

// Whether a machine may run at p: from lo to hi where its row is in range, else only at 0 W. A test and the row's limits, not the limits as an
// option: the row holds them whether it is in range or not.
pub fn allow(is_in_range: bool, lo: Watts, hi: Watts, p: Watts) -> bool
    ensures { Decides result (allowed_if is_in_range (Between lo.0 hi.0) (whole p.0)) }
{
    if is_in_range {
        is_between(lo.0, hi.0, p.0)
    } else {
        p.0 == 0
    }
}
