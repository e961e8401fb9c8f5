// Single numbers as names, as buses have, and the numbers that may stand in a name.
ghost use Rattle.std.specs.Prelude.{◌≡◌, Decides};
ghost use Rattle.std.proofs.Common.{rules};
ghost use Rattle.names.specs.Names.{NameRange};

use crate::name::Name;

impl Name for u32 {
    ghost same = { ◌≡◌ };

    ghost sameness = { Prim.search rules };

    // By the comparison of numbers; in each kind of name, for it is the kind that defines its sameness.
    fn is_same(&self, other: &u32) -> bool {
        *self == *other
    }
}

// Whether the number may name a bus or a circuit: 1 to 255.
pub fn may_name(number: u32) -> bool
    ensures { Decides result (NameRange number) }
{
    (1..=255).contains(&number)
}
