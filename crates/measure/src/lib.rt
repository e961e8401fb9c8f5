// The measures, each a type of its own; columns of numbers and of one measure each; ranges, and rows by number.
#![tactic(auto)]

pub mod column;
pub mod measured;
pub mod price;
pub mod range;
pub mod rows;

// A power in watts.
#[derive(Clone, Copy, PartialEq, Eq, PartialOrd, Ord, Debug, Default)]
pub struct Watts(pub i64);

impl Watts {
    // Every power lies within ± this many watts.
    pub const LIMIT: i64 = 100_000_000;
}

// An angle in microradians.
#[derive(Clone, Copy, PartialEq, Eq, PartialOrd, Ord, Debug, Default)]
pub struct Microradians(pub i64);

impl Microradians {
    // Every angle of a bus lies within ± this many microradians.
    pub const LIMIT: i64 = 3_200_000;
}

// A cost in grains per hour.
#[derive(Clone, Copy, PartialEq, Eq, PartialOrd, Ord, Debug)]
pub struct Grains(pub i64);

// An angle price in grains per hour per microradian: what an angle difference costs.
#[derive(Clone, Copy, PartialEq, Eq, PartialOrd, Ord, Debug)]
pub struct AnglePrice(pub i64);

impl AnglePrice {
    // Every angle price lies within ± this many grains per hour and microradian.
    pub const LIMIT: i64 = 100_000_000;
}
