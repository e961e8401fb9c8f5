// Papers brought to a manned panel one after another.
ghost use Rattle.std.specs.Prelude.{◌≡◌, IfOk};
ghost use Rattle.std.specs.Io.{StartsWith};
ghost use Rattle.stepped.specs.Piecewise.{stepped_meaning};
ghost use Rattle.curved.specs.Quadratic.{curved_meaning};
ghost use Rattle.paper_file.specs.Papers.{papers};
ghost use Rattle.panel.specs.View.{manned};
ghost use Rattle.file_run.specs.Called.{CalledSo};
ghost use Rattle.file_run.specs.Papers.{Printed, PapersAnswered};

use crate::answers::{change_answer, hand_over_answer, offer_answer, trial_answer};
use answer::answer::Answer;
use curved::curved::Curved;
use panel::panel::Panel;
use panel::watch::Watch;
use paper_file::call::{Call, call_of};
use paper_file::papers::paper_len;
use std::alloc::AllocError;
use stepped::stepped::Stepped;

// What the paper is answered, by the call that it goes to. A hand-over writes its sheet on the page.
fn answer_paper(
    panel: &mut Panel<Stepped, Curved, Watch>,
    paper: &[u32],
    page: &mut [u8; 256],
) -> Answer
    ensures { CalledSo stepped_meaning curved_meaning paper.now (manned stepped_meaning curved_meaning panel.old) (manned stepped_meaning curved_meaning panel.new) result }
{
    match call_of(paper) {
        Call::Dispatch => offer_answer(panel.offer_dispatch(paper)),
        Call::Prices => offer_answer(panel.offer_prices(paper)),
        Call::Demand => change_answer(panel.change_demand(paper)),
        Call::Mark => change_answer(panel.change_mark(paper)),
        Call::Trial => trial_answer(panel.trial(paper)),
        Call::HandOver => hand_over_answer(panel.hand_over(paper, page)),
    }
}

// Brings the panel each paper among the words, and writes what it is answered at the end of the text.
pub(crate) fn answer_papers(
    panel: &mut Panel<Stepped, Curved, Watch>,
    words: &[u32],
    page: &mut [u8; 256],
    text: &mut Vec<u8>,
) -> Result<(), AllocError>
    ensures printed { IfOk result (λ _. Printed (PapersAnswered stepped_meaning curved_meaning (manned stepped_meaning curved_meaning panel.old) (papers words.now) (manned stepped_meaning curved_meaning panel.new)) text.old.items text.new.items) }
    ensures begins { StartsWith text.new.items text.old.items }
{
    let mut rest = words;
    while !rest.is_empty() {
        let (paper, later) = rest.split_at(paper_len(rest));
        answer_paper(panel, paper, page).append_to(text)?;
        rest = later;
    }
    Ok(())
}
