// A trial paper: a branch, then as a price list.
ghost use Rattle.std.specs.Prelude.{◌≡◌, MatchResult};
ghost use Rattle.word.specs.Fault.{RefusedWord};
ghost use Rattle.paper.specs.Trial.{TrialForm, ReadsTrial};

use crate::prices::{branch_run, price_columns};
use names::branch::BranchName;
use network::prices::Prices;
use word::column::WordColumn;
use word::fault::WordFault;
use word::head::Head;
use word::name::branch_name;
use word::range::PRICE;
use word::read::admit_all;
use word::run::Run;
use word::slot::Slot;

// A checked trial, as it stands in its words.
#[derive(Clone, Copy, Drop)]
pub struct TrialPaper<'a> {
    pub branch: BranchName,
    pub list: Prices<WordColumn<'a>>,
}

// Reads a trial with a list for so many buses and branches.
#[tactic(auto, using(crate::proofs::Lists::trial_refused, crate::proofs::Lists::reads_trial))]
pub fn read_trial<'a>(
    words: &'a [u32],
    buses: u8,
    branches: u8,
) -> Result<TrialPaper<'a>, WordFault>
    ensures { MatchResult result (λ p. ReadsTrial buses branches words.now p) (λ f. RefusedWord (TrialForm buses branches) words.now f) }
{
    admit_all(
        words,
        &[
            Run::one(Slot::Head(Head::Trial.number())),
            Run::one(Slot::Branch),
            Run::many(usize::from(buses), PRICE),
            branch_run(branches),
            Run::one(Slot::End),
        ],
    )?;
    let [_head, branch, ..] = words else {
        return unreachable();
    };
    Ok(TrialPaper {
        branch: branch_name(*branch),
        list: price_columns(words, 2, buses, branches),
    })
}
