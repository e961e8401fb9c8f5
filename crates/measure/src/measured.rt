// Columns of one measure each: what is read from one is a power, an angle or a price, so that none stands for another.
ghost use Rattle.std.specs.Prelude.{◌≡◌, pos, neg_ℤ, MatchOption};
ghost use Rattle.measure.specs.Range.{Within, kept};

use crate::column::Column;
use crate::price::Price;
use crate::{AnglePrice, Microradians, Watts};
use std::marker::PhantomData;

// A column whose numbers are all of the measure T. Both fields are public, so that a constant can be written out: it can't call `new`.
#[derive_where(Clone, Copy; C)]
#[derive(Drop)]
pub struct Measured<C, T> {
    pub column: C,
    pub measure: PhantomData<T>,
}

// Powers in watts.
pub type PowerColumn<C> = Measured<C, Watts>;

// Angles in microradians.
pub type AngleColumn<C> = Measured<C, Microradians>;

// Angle prices.
pub type AnglePriceColumn<C> = Measured<C, AnglePrice>;

impl<C, T> Measured<C, T> {
    // The column, read in that measure.
    pub fn new(column: C) -> Measured<C, T>
        ensures { result.column ≡ column }
    {
        Measured {
            column,
            measure: PhantomData,
        }
    }
}

impl<C: Column, T: From<i64>> Measured<C, T> {
    // The number in that row, in the measure.
    pub fn at(&self, row: usize) -> T
        ensures { T.from_gives (C.value self.now.column row) result }
    {
        T::from(self.column.at(row))
    }
}

// One implementation a measure, since it is what tells one measure from another.
impl From<i64> for Watts {
    ghost from_gives = { λ x w. w.0 ≡ x };

    fn from(power: i64) -> Watts {
        Watts(power)
    }
}

impl From<i64> for Microradians {
    ghost from_gives = { λ x a. a.0 ≡ x };

    fn from(angle: i64) -> Microradians {
        Microradians(angle)
    }
}

impl From<i64> for AnglePrice {
    ghost from_gives = { λ x q. q.0 ≡ x };

    fn from(price: i64) -> AnglePrice {
        AnglePrice(price)
    }
}

// Prices in grains per watt-hour. Not a measure that any number has: a price keeps its range.
#[derive(Clone, Copy, Drop)]
pub struct PriceColumn<C> {
    pub column: C,
}

impl<C: Column> PriceColumn<C> {
    // The price in that row, or none where the number is outside the range of prices.
    pub fn at(&self, row: usize) -> Option<Price>
        ensures { MatchOption result (Within 1000000 (C.value self.now.column row) → ⊥) (λ q. q.value ≡ C.value self.now.column row) }
    {
        Price::new(self.column.at(row))
    }

    // The price in that row, or 0 where the number is outside the range of prices.
    pub fn kept(&self, row: usize) -> Price
        ensures { result.value ≡ kept (neg_ℤ (pos 1000000)) (pos 1000000) (C.value self.now.column row) }
    {
        Price::kept(self.column.at(row))
    }
}
