// Refusals: what is wrong, and where.
ghost use Rattle.std.specs.Prelude.{◌≡◌};
ghost use Rattle.network.specs.Refusals.{number_of, place_of};

// Why a table, a dispatch or a price list is refused. A row is counted from 0.
#[derive(Clone, Copy, PartialEq, Eq, Debug)]
pub enum Refusal {
    // a number in that row is outside its range
    OutOfRange(usize),
    // the limits in that branch row are crossed
    Crossed(usize),
    // the tolerance or the size of a table is outside its limits
    Size,
    // the name in that row repeats an earlier one
    Repeated(usize),
    // that row names a bus that the case lacks, or is a branch with equal ends; counted on through both groups and the branches
    UnknownBus(usize),
    // the branch that is named is not in the case
    NotInCase,
    // the machine in that row, counted on through both groups, does not allow its power
    NotAllowed(usize),
    // the bus in that row is out of balance
    Unbalanced(usize),
    // the flow of the branch in that row exceeds its rating
    Overloaded(usize),
    // the angle difference of the branch in that row breaks its limits
    Overstretched(usize),
    // the branch in that row, in service and without a rating, has a congestion price
    Unrated(usize),
    // the weight of the branch in that row is too large
    Weight(usize),
    // the residue of the bus in that row is too large
    Residue(usize),
}

impl Refusal {
    // The number of the refusal, by which it is shown; inside, the refusal itself is passed on.
    pub fn number(self) -> u8
        ensures { result ≡ number_of self }
    {
        match self {
            Refusal::OutOfRange(_) => 4,
            Refusal::Crossed(_) => 5,
            Refusal::Size => 6,
            Refusal::Repeated(_) => 8,
            Refusal::UnknownBus(_) => 9,
            Refusal::NotInCase => 10,
            Refusal::NotAllowed(_) => 11,
            Refusal::Unbalanced(_) => 12,
            Refusal::Overloaded(_) => 13,
            Refusal::Overstretched(_) => 14,
            Refusal::Unrated(_) => 15,
            Refusal::Weight(_) | Refusal::Residue(_) => 16,
        }
    }

    // Where the fault stands.
    pub fn place(self) -> usize
        ensures { result ≡ place_of self }
    {
        match self {
            Refusal::Size => 0,
            Refusal::NotInCase => 1,
            Refusal::OutOfRange(row)
            | Refusal::Crossed(row)
            | Refusal::Repeated(row)
            | Refusal::UnknownBus(row)
            | Refusal::NotAllowed(row)
            | Refusal::Unbalanced(row)
            | Refusal::Overloaded(row)
            | Refusal::Overstretched(row)
            | Refusal::Unrated(row)
            | Refusal::Weight(row)
            | Refusal::Residue(row) => row,
        }
    }
}
