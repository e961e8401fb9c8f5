// Papers of fixed length are runs of places.
ghost use Rattle.std.specs.Prelude.{◌≡◌};
ghost use Rattle.word.specs.Run.{slots_of, Due, slot_in};

use crate::slot::Slot;

// So many places, filled by the two slots in turn.
#[derive(Clone, Copy)]
pub struct Run {
    pub count: usize,
    pub slot: Slot,
    pub other: Slot,
}

impl Run {
    pub fn one(slot: Slot) -> Run
        ensures { result ≡ record { count = 1; slot = slot; other = slot } }
    {
        Run::many(1, slot)
    }

    pub fn many(count: usize, slot: Slot) -> Run
        ensures { result ≡ record { count = count; slot = slot; other = slot } }
    {
        Run {
            count,
            slot,
            other: slot,
        }
    }

    fn slot_in(self, place: usize) -> Slot
        ensures { result ≡ slot_in self place }
    {
        if place % 2 == 0 {
            self.slot
        } else {
            self.other
        }
    }
}

// What is due at this place, or nothing after the last.
pub fn slot_at(runs: &[Run], place: usize) -> Option<Slot>
    ensures { Due (slots_of runs.now) place result }
{
    let mut left = place;
    // Run by run, not in a chain: what is left of the place goes from each to the next, and `try_fold` would break off with the slot as an error.
    for run in runs {
        if left < run.count {
            return Some(run.slot_in(left));
        }
        left -= run.count;
    }
    None
}
