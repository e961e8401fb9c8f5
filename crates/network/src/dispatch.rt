// A dispatch in whole numbers.
use measure::measured::{AngleColumn, PowerColumn};

// The power of each machine of the two groups, and the angle of each bus but the reference: row i of the angles is that of bus row i + 1.
#[derive_where(Clone, Copy; C)]
#[derive(Drop)]
pub struct Dispatch<C> {
    pub first: PowerColumn<C>,
    pub second: PowerColumn<C>,
    pub angles: AngleColumn<C>,
}
