// Names in the payload of a word.
ghost use Rattle.std.specs.Prelude.{◌≡◌};
ghost use Rattle.word.specs.Slot.{branch_of};

use crate::kind::payload;
use names::branch::BranchName;

// The branch that a word names: its circuit, and the buses that it leaves and enters.
pub fn branch_name(word: u32) -> BranchName
    ensures { result ≡ branch_of word }
{
    let p = payload(word);
    BranchName {
        circuit: p / 65536,
        from: p / 256 % 256,
        to: p % 256,
    }
}
