// Price lists.
use measure::measured::{AnglePriceColumn, PriceColumn};

// A price for each bus, and a congestion price and an angle price for each branch, by row. Columns side by side, as tables and papers give them.
#[derive_where(Clone, Copy; C)]
#[derive(Drop)]
pub struct Prices<C> {
    pub bus: PriceColumn<C>,
    pub congestion: PriceColumn<C>,
    pub angle: AnglePriceColumn<C>,
}
