// What a paper is answered, by what its call came to.
ghost use Rattle.std.specs.Prelude.{◌≡◌};
ghost use Rattle.file_run.specs.Answers.{offer_answer, change_answer, trial_answer, hand_over_answer};

use answer::answer::Answer;
use case_paper::shown::Shown;
use measure::Grains;
use panel::outcome::Outcome;
use panel::refusal::{OfferRefusal, PaperRefusal};
use sheet::sheet::Sheet;
use word::fault::WordFault;

// What an offer is answered.
pub(crate) fn offer_answer(offer: Result<Outcome, OfferRefusal>) -> Answer
    ensures { result ≡ offer_answer offer }
{
    match offer {
        Ok(Outcome::Held(figure)) => Answer::Held(figure),
        Ok(Outcome::Passed(figure)) => Answer::Passed(figure),
        Err(refusal) => Answer::Refused(Shown::from(refusal)),
    }
}

// What a change is answered.
pub(crate) fn change_answer(change: Result<(), OfferRefusal>) -> Answer
    ensures { result ≡ change_answer change }
{
    match change {
        Ok(()) => Answer::Changed,
        Err(refusal) => Answer::Refused(Shown::from(refusal)),
    }
}

// What a trial is answered.
pub(crate) fn trial_answer(trial: Result<Grains, PaperRefusal>) -> Answer
    ensures { result ≡ trial_answer trial }
{
    match trial {
        Ok(floor) => Answer::Trial(floor),
        Err(refusal) => Answer::Refused(Shown::from(refusal)),
    }
}

// What a hand-over is answered: the sheet of the watch that ended.
pub(crate) fn hand_over_answer(hand_over: Result<Sheet, WordFault>) -> Answer
    ensures { result ≡ hand_over_answer hand_over }
{
    match hand_over {
        Ok(sheet) => Answer::Sheet(sheet),
        Err(fault) => Answer::Refused(Shown::from(fault)),
    }
}
