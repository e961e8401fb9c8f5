// A hand-over paper: a head, the next attendant's number, an end.
ghost use Rattle.std.specs.Prelude.{◌≡◌, ◌<◌, MatchResult};
ghost use Rattle.word.specs.Fault.{RefusedWord};
ghost use Rattle.paper.specs.HandOver.{hand_over_words, HandOverForm};

use word::amount::amount;
use word::fault::WordFault;
use word::head::Head;
use word::range::ATTENDANT;
use word::read::admit_all;
use word::run::Run;
use word::slot::Slot;

#[tactic(auto, using(crate::proofs::Layouts::refused, crate::proofs::HandOvers::hand_over_layout))]
pub fn read_hand_over(words: &[u32]) -> Result<u16, WordFault>
    ensures { MatchResult result (λ v. (v < 65536) × (words.now ≡ hand_over_words v)) (λ f. RefusedWord HandOverForm words.now f) }
{
    admit_all(
        words,
        &[
            Run::one(Slot::Head(Head::HandOver.number())),
            Run::one(ATTENDANT),
            Run::one(Slot::End),
        ],
    )?;
    let [_head, attendant, _end] = words else {
        return unreachable();
    };
    // In range by the slot, so that 16 bits hold it.
    Ok(amount(*attendant) as u16)
}
