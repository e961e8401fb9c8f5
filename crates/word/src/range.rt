// The ranges of the amounts in papers.
use crate::slot::Slot;
use measure::price::Price;
use measure::{AnglePrice, Microradians, Watts};

// a power, in watts
pub const POWER: Slot = Slot::Amount(-Watts::LIMIT, Watts::LIMIT);
// an angle, in microradians
pub const ANGLE: Slot = Slot::Amount(-Microradians::LIMIT, Microradians::LIMIT);
// a price, in grains per watt-hour
pub const PRICE: Slot = Slot::Amount(-Price::LIMIT, Price::LIMIT);
// an angle price, in grains per hour per microradian
pub const ANGLE_PRICE: Slot = Slot::Amount(-AnglePrice::LIMIT, AnglePrice::LIMIT);
// a service mark: 1 in, 0 out
pub const MARK: Slot = Slot::Amount(0, 1);
// an attendant's number
pub const ATTENDANT: Slot = Slot::Amount(0, 65_535);
