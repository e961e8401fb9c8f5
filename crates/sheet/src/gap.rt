// The gap between a cost and a floor.
ghost use Rattle.std.specs.Prelude.{◌≡◌};
ghost use Rattle.sheet.specs.Figure.{Short, excess_of, gap_of};

use measure::Grains;

// By how many grains per hour a cost is above a floor; below 0 where it is under it. The difference of two `Grains` fits 65 bits.
#[derive(Clone, Copy, PartialEq, Eq, PartialOrd, Ord, Debug)]
pub struct Gap(pub i128);

impl Gap {
    // The gap between the cost and the floor, where both stand.
    pub fn between(cost: Option<Grains>, floor: Option<Grains>) -> Option<Gap>
        ensures value { result ≡ gap_of cost floor }
        ensures short { Short (excess_of result) }
    {
        Some(Gap(i128::from(cost?.0) - i128::from(floor?.0)))
    }
}
