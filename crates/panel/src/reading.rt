// What is read off a panel.
use measure::Grains;
use sheet::gap::Gap;

// The cost and the floor that are shown, and the gap between them where both are.
#[derive(Clone, Copy, PartialEq, Eq, Debug)]
pub struct Reading {
    pub cost: Option<Grains>,
    pub floor: Option<Grains>,
    pub gap: Option<Gap>,
}
