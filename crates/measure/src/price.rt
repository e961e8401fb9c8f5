// A price in grains per watt-hour.
ghost use Rattle.std.specs.Prelude.{◌≡◌, pos, neg_ℤ, MatchOption};
ghost use Rattle.measure.specs.Range.{Within, kept};

use crate::range::is_between;

// A price keeps its range, within ±1,000,000.
#[derive(Clone, Copy, PartialEq, Eq, PartialOrd, Ord, Debug)]
pub struct Price {
    value: i64,
    ghost ok: { Within 1000000 value },
}

impl Price {
    // Every price lies within ± this many grains per watt-hour.
    pub const LIMIT: i64 = 1_000_000;

    // The price of that many grains per watt-hour, or none outside the range. Not `TryFrom`: its error would be a type with one value.
    pub fn new(value: i64) -> Option<Price>
        ensures { MatchOption result (Within 1000000 value → ⊥) (λ q. q.value ≡ value) }
    {
        if !is_between(-Self::LIMIT, Self::LIMIT, value) {
            return None;
        }
        Some(Price { value })
    }

    // The price of that many grains per watt-hour, or 0 outside the range.
    pub fn kept(value: i64) -> Price
        ensures { result.value ≡ kept (neg_ℤ (pos 1000000)) (pos 1000000) value }
    {
        Self::new(value).unwrap_or(Self::zero())
    }

    // The price of 0.
    pub fn zero() -> Price
        ensures { result.value ≡ pos 0 }
    {
        Price { value: 0 }
    }

    // How many grains per watt-hour, as `NonZero::get` gives its number.
    pub fn get(self) -> i64
        ensures { result ≡ self.value }
    {
        self.value
    }
}
