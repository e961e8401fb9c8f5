// What is due at one place of a paper.
ghost use Rattle.std.specs.Prelude.{◌≡◌, Decides, MatchResult, None};
ghost use Rattle.word.specs.Slot.{slot_place, InRange, Fits, Misfits};

use crate::amount::amount;
use crate::fault::{WordFault, WordRefusal};
use crate::kind::{kind_of, payload};
use crate::name::branch_name;
use crate::place::{Place, may_stand};
use names::number::may_name;

#[derive(Clone, Copy, PartialEq, Eq, Debug)]
pub enum Slot {
    // a head with this payload: any number, since a form may have any head, and a `Head` here would ask more of who makes one
    Head(u32),
    // a bus name
    Bus,
    // a branch name
    Branch,
    // an amount from the first number to the second
    Amount(i64, i64),
    End,
}

impl Slot {
    fn place(self) -> Place
        ensures { result ≡ slot_place self }
    {
        match self {
            Slot::Head(_) => Place::Head,
            Slot::Bus => Place::BusName,
            Slot::Branch => Place::BranchName,
            Slot::Amount(_, _) => Place::Amount,
            Slot::End => Place::End,
        }
    }

    // Whether the payload or amount is in the slot's range.
    pub fn holds(self, word: u32) -> bool
        ensures { Decides result (InRange self word) }
    {
        let p = payload(word);
        match self {
            Slot::Head(h) => p == h,
            Slot::Bus => may_name(p),
            Slot::Branch => branch_name(word).is_in_range(),
            Slot::Amount(least, most) => (least..=most).contains(&amount(word)),
            Slot::End => p == 0,
        }
    }

    // The word at `place` fits the slot, or is refused.
    pub fn admit(self, place: usize, word: u32) -> Result<(), WordFault>
        ensures { MatchResult result (λ _. Fits self word) (λ f. Misfits self word f.refusal × (f.place ≡ place) × (f.first ≡ None)) }
    {
        if !may_stand(self.place(), kind_of(word)) {
            return Err(WordFault::at(WordRefusal::Kind, place));
        }
        if !self.holds(word) {
            return Err(WordFault::at(WordRefusal::Range, place));
        }
        Ok(())
    }
}
