// The names of buses and branches. The body is the same for each, as a trait can't say that a type has such a field.
use crate::branch::Branch;
use crate::bus::Bus;
use names::branch::BranchName;
use names::name::Named;

impl Named for Bus {
    type Kind = u32;

    ghost name = { λ b. b.name };

    fn name(&self) -> u32 {
        self.name
    }
}

impl Named for Branch {
    type Kind = BranchName;

    ghost name = { λ b. b.name };

    fn name(&self) -> BranchName {
        self.name
    }
}
