// The reading of papers of fixed length.
ghost use Rattle.std.specs.Prelude.{◌≡◌, MatchResult};
ghost use Rattle.word.specs.Fault.{RefusedWord};
ghost use Rattle.word.specs.Slot.{Matches, Possible};
ghost use Rattle.word.specs.Run.{slots_of};

use crate::fault::{WordFault, WordRefusal};
use crate::run::{Run, slot_at};

// The words fit the places of the runs, one to each, or the first fault.
pub fn admit_all(words: &[u32], runs: &[Run]) -> Result<(), WordFault>
    requires { Possible (slots_of runs.now) }
    ensures { MatchResult result (λ _. Matches (slots_of runs.now) words.now) (λ f. RefusedWord (Matches (slots_of runs.now)) words.now f) }
{
    // By place, which is part of the fault; a loop, whose invariant speaks of the words before the place.
    for (place, word) in words.iter().enumerate() {
        // By `let .. else`: `ok_or` is given the fault at each word, also where it fits.
        let Some(slot) = slot_at(runs, place) else {
            return Err(WordFault::at(WordRefusal::Follows, place));
        };
        slot.admit(place, *word)?;
    }
    if slot_at(runs, words.len()).is_some() {
        return Err(WordFault::at(WordRefusal::Stops, words.len()));
    }
    Ok(())
}
