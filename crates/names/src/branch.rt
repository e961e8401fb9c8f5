// The names of branches.
ghost use Rattle.std.specs.Prelude.{◌≡◌, Decides};
ghost use Rattle.std.proofs.Common.{rules};
ghost use Rattle.names.specs.Names.{BranchRange};

use crate::name::Name;
use crate::number::may_name;

// A branch by its circuit and the buses that it leaves and enters: with its ends reversed it is another name.
#[derive(Clone, Copy, PartialEq, Eq, Debug, Default)]
pub struct BranchName {
    pub circuit: u32,
    pub from: u32,
    pub to: u32,
}

impl BranchName {
    // Whether each of its numbers may stand in a name.
    pub fn is_in_range(&self) -> bool
        ensures { Decides result (BranchRange self.now) }
    {
        may_name(self.circuit) && may_name(self.from) && may_name(self.to)
    }
}

impl Name for BranchName {
    ghost same = { ◌≡◌ };

    ghost sameness = { Prim.search rules };

    // By the derived comparison; in each kind of name, for it is the kind that defines its sameness.
    fn is_same(&self, other: &BranchName) -> bool {
        *self == *other
    }
}
