// Raw rows of buses and branches: what they must keep, and the bus or the branch that a row then is.
ghost use Rattle.std.specs.Prelude.{◌≡◌, Decides, MatchOption};
ghost use Rattle.build.specs.Raw.{BusInRange, BranchInRange, CrossedLimits, BusOf, BranchOf};

use measure::range::is_between;
use measure::{Microradians, Watts};
use names::branch::BranchName;
use names::name::Named;
use names::number::may_name;
use network::branch::{Branch, Ends};
use network::bus::Bus;

// A bus as it is offered: any numbers may stand in it.
#[derive(Clone, Copy, Default)]
pub struct BusRow {
    pub name: u32,
    pub demand: Watts,
}

// A branch as it is offered: any numbers may stand in it.
#[derive(Clone, Copy, Default)]
pub struct BranchRow {
    pub name: BranchName,
    pub susceptance: i64,
    pub shift: Microradians,
    pub rating: Watts,
    pub angmin: Microradians,
    pub angmax: Microradians,
    pub service: bool,
}

// A row of which it is known which numbers may stand in it: a trait, so that one search serves both kinds of row.
pub trait Ranged {
    // every number is in its range
    ghost ranged: { Self → Type 0 };

    // Whether every number in it is in its range.
    fn is_in_range(&self) -> bool
        ensures { Decides result (ranged self.now) };
}

impl Ranged for BusRow {
    ghost ranged = { BusInRange };

    fn is_in_range(&self) -> bool {
        may_name(self.name) & is_between(-Watts::LIMIT, Watts::LIMIT, self.demand.0)
    }
}

impl Ranged for BranchRow {
    ghost ranged = { BranchInRange };

    fn is_in_range(&self) -> bool {
        let (shift, difference) = (Branch::SHIFT_LIMIT, Branch::DIFFERENCE_LIMIT);
        self.name.is_in_range()
            & is_between(1, Branch::MOST_SUSCEPTANCE, self.susceptance)
            & is_between(-shift, shift, self.shift.0)
            & is_between(0, Watts::LIMIT, self.rating.0)
            & is_between(-difference, difference, self.angmin.0)
            & is_between(-difference, difference, self.angmax.0)
    }
}

impl BusRow {
    // The bus of the row, or none where a number is outside its range. (An option, not a `TryFrom`: its error would have one value, and
    // which row it stands in only the caller knows.)
    pub fn bus(&self) -> Option<Bus>
        ensures { MatchOption result (BusInRange self.now → ⊥) (λ b. BusOf self.now b) }
    {
        if !self.is_in_range() {
            return None;
        }
        Some(Bus {
            name: self.name,
            demand: self.demand,
        })
    }
}

impl BranchRow {
    // Whether the limits of the angle difference are crossed.
    pub fn is_crossed(&self) -> bool
        ensures { Decides result (CrossedLimits self.now) }
    {
        self.angmin.0 > self.angmax.0
    }

    // The branch of the row between the buses in those rows, or none where a number is outside its range or the limits are crossed. (An
    // option here too, and a `TryFrom` would have no room for the ends.)
    pub fn branch(&self, ends: Ends) -> Option<Branch>
        ensures { MatchOption result (BranchInRange self.now → (CrossedLimits self.now → ⊥) → ⊥) (λ b. BranchOf self.now ends b) }
    {
        if !self.is_in_range() || self.is_crossed() {
            return None;
        }
        Some(Branch {
            name: self.name,
            ends,
            susceptance: self.susceptance,
            shift: self.shift,
            rating: self.rating,
            angmin: self.angmin,
            angmax: self.angmax,
            service: self.service,
        })
    }
}

// The name of a row, as of a bus and of a branch: the body is the same for each, as a trait can't say that a type has such a field.
impl Named for BusRow {
    type Kind = u32;

    ghost name = { λ b. b.name };

    fn name(&self) -> u32 {
        self.name
    }
}

impl Named for BranchRow {
    type Kind = BranchName;

    ghost name = { λ b. b.name };

    fn name(&self) -> BranchName {
        self.name
    }
}
