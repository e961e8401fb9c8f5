// The name list at two kinds of row: buses, named by single numbers, and branches, named by triples.
#![tactic(auto)]

ghost use Rattle.std.specs.Prelude.{◌≡◌, Decides};
ghost use Rattle.measure.specs.Rows.{HoldsAt, Lowest};
ghost use Rattle.names.specs.Names.{Repeats, Distinct};

use names::branch::BranchName;
use names::list::NameList;
use names::name::Named;

#[cfg(test)]
mod tests;

#[derive(Clone, Copy)]
pub struct Bus {
    pub name: u32,
    pub load: i64,
}

impl Named for Bus {
    type Kind = u32;

    ghost name = { λ b. b.name };

    fn name(&self) -> u32 {
        self.name
    }
}

#[derive(Clone, Copy)]
pub struct Branch {
    pub name: BranchName,
    pub rating: i64,
}

impl Named for Branch {
    type Kind = BranchName;

    ghost name = { λ b. b.name };

    fn name(&self) -> BranchName {
        self.name
    }
}

// The lowest row of the bus with that name.
pub fn bus_row(buses: &[Bus], name: u32) -> Option<usize>
    ensures { Lowest (HoldsAt (λ b. b.item.name ≡ name) buses.now) result }
{
    NameList { rows: buses }.find(&name)
}

// The lowest row whose branch an earlier row names too.
pub fn repeated_branch(branches: &[Branch]) -> Option<usize>
    ensures { Lowest (Repeats ◌≡◌ (λ b. b.name) branches.now) result }
{
    NameList { rows: branches }.repeated()
}

// Whether no two branches have the same name.
pub fn has_distinct_names(branches: &[Branch]) -> bool
    ensures { Decides result (Distinct ◌≡◌ (λ b. b.name) branches.now) }
{
    repeated_branch(branches).is_none()
}
