// The reader's places, and the kinds of word that may stand at each.
ghost use Rattle.std.specs.Prelude.{◌≡◌};
ghost use Rattle.word.specs.Place.{may_stand};

use crate::kind::Kind;

#[derive(Clone, Copy, PartialEq, Eq, Debug)]
pub enum Place {
    // a head word is due
    Head,
    // a bus name is due
    BusName,
    // a branch name is due
    BranchName,
    // an amount is due
    Amount,
    // the end word is due
    End,
    // a record of any sort or the end word is due
    Buses,
    // the same, after a stepped record
    Stepped,
    // the same, after a curved record
    Curved,
    // the same, after a branch record
    Branches,
}

// A constant table, not a match on both, by the forms that docs/DECISIONS.md lists. By place and kind, in their orders: unknown, head, bus, stepped, curved, branch, amount, end.
const MAY_STAND: [[bool; 8]; 9] = [
    [false, true, false, false, false, false, false, false],
    [false, false, true, false, false, false, false, false],
    [false, false, false, false, false, true, false, false],
    [false, false, false, false, false, false, true, false],
    [false, false, false, false, false, false, false, true],
    [false, false, true, true, true, true, false, true],
    [false, false, false, true, true, true, false, true],
    [false, false, false, false, true, true, false, true],
    [false, false, false, false, false, true, false, true],
];

// By `as`: an enum has no `From` to its number.
pub fn may_stand(place: Place, kind: Kind) -> bool
    ensures { result ≡ may_stand place kind }
{
    MAY_STAND[place as usize][kind as usize]
}
