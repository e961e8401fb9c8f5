// The figures of a sheet as numbers.
ghost use Rattle.std.specs.Prelude.{◌≡◌, pos, Some};
ghost use Rattle.std.proofs.Props.{props};
ghost use Rattle.sheet.specs.Figure.{Short, amount_of, excess_of, gap_of};

use crate::gap::Gap;
use measure::Grains;

// A number of at most twenty digits, or none.
#[derive(Clone, Copy)]
pub(crate) struct Figure {
    pub(crate) value: Option<i128>,
    ghost short: { Short value } by { Prim.hlevel props },
}

impl Figure {
    // The gap between the cost and the floor, where both stand.
    pub(crate) fn of_gap(cost: Option<Grains>, floor: Option<Grains>) -> Figure
        ensures { result.value ≡ excess_of (gap_of cost floor) }
    {
        Figure {
            value: Gap::between(cost, floor).map(|gap| gap.0),
        }
    }
}

// A count.
impl From<u32> for Figure {
    ghost from_gives = { λ n f. f.value ≡ Some (pos n) };

    fn from(count: u32) -> Figure {
        Figure {
            value: Some(i128::from(count)),
        }
    }
}

// A cost or a floor, where it stands.
impl From<Option<Grains>> for Figure {
    ghost from_gives = { λ g f. f.value ≡ amount_of g };

    fn from(grains: Option<Grains>) -> Figure {
        Figure {
            value: grains.map(|grains| i128::from(grains.0)),
        }
    }
}
