// Angles at the buses, and what they make the branches carry.
ghost use Rattle.std.specs.Prelude.{◌≡◌, ◌-ℤ◌, ◌*ℤ◌};
ghost use Rattle.network.specs.Ranges.{Carried};
ghost use Rattle.judging.specs.Whole.{angle_of, difference_of, flow_of};

use measure::Microradians;
use measure::column::Column;
use measure::measured::AngleColumn;
use measure::range::{keep, only_if};
use network::branch::Branch;

// The angles that a dispatch gives, at so many buses.
#[derive_where(Clone, Copy)]
pub(crate) struct Angles<'a, C> {
    pub(crate) given: &'a AngleColumn<C>,
    pub(crate) buses: u8,
}

// A susceptance times the angle difference less the shift: a function, so that the ranges within which it fits stand in one place.
fn carried(susceptance: i64, difference: i64, shift: i64) -> i64
    requires { Carried susceptance difference shift }
    ensures { result ≡ susceptance *ℤ (difference -ℤ shift) }
{
    susceptance * (difference - shift)
}

impl<'a, C: Column> Angles<'a, C> {
    // The angle at the bus in that row: 0 at the reference.
    pub(crate) fn at_bus(&self, row: u8) -> i64
        ensures { result ≡ angle_of self.now.buses (C.value self.now.given.now.column) row }
    {
        if row == 0 {
            return 0;
        }
        let angle = keep(
            -Microradians::LIMIT,
            Microradians::LIMIT,
            self.given.at(usize::from(row) - 1).0,
        );
        only_if(row < self.buses, angle)
    }

    // The angle at its from end less that at its to end.
    pub(crate) fn difference(&self, branch: &Branch) -> i64
        ensures { result ≡ difference_of (angle_of self.now.buses (C.value self.now.given.now.column)) branch.now }
    {
        self.at_bus(branch.ends.from) - self.at_bus(branch.ends.to)
    }

    // What the branch carries.
    pub(crate) fn flow(&self, branch: &Branch) -> i64
        ensures { result ≡ flow_of (angle_of self.now.buses (C.value self.now.given.now.column)) branch.now }
    {
        only_if(
            branch.service,
            carried(branch.susceptance, self.difference(branch), branch.shift.0),
        )
    }
}
