// A dispatch paper: the powers of both groups, then the angle of every bus but the first.
ghost use Rattle.std.specs.Prelude.{◌≡◌, ◌+◌, MatchResult};
ghost use Rattle.word.specs.Fault.{RefusedWord};
ghost use Rattle.paper.specs.Dispatch.{DispatchForm, ReadsDispatch};

use crate::columns::column;
use measure::measured::{AngleColumn, PowerColumn};
use network::dispatch::Dispatch;
use word::column::WordColumn;
use word::fault::WordFault;
use word::head::Head;
use word::range::{ANGLE, POWER};
use word::read::admit_all;
use word::run::Run;
use word::slot::Slot;

// Reads a dispatch of so many powers of the first group, of the second, and so many angles: its columns stand in the words.
#[tactic(auto, using(crate::proofs::Dispatches::dispatch_refused, crate::proofs::Dispatches::dispatch_long, crate::proofs::Dispatches::reads_dispatch))]
pub fn read_dispatch<'a>(
    words: &'a [u32],
    first: usize,
    second: usize,
    angles: usize,
) -> Result<Dispatch<WordColumn<'a>>, WordFault>
    ensures { MatchResult result (λ d. ReadsDispatch first second angles words.now d) (λ f. RefusedWord (DispatchForm (first + second) angles) words.now f) }
{
    admit_all(
        words,
        &[
            Run::one(Slot::Head(Head::Dispatch.number())),
            Run::many(first, POWER),
            Run::many(second, POWER),
            Run::many(angles, ANGLE),
            Run::one(Slot::End),
        ],
    )?;
    let second_start = 1 + first;
    Ok(Dispatch {
        first: PowerColumn::new(column::<1>(words, 1, first)),
        second: PowerColumn::new(column::<1>(words, second_start, second)),
        angles: AngleColumn::new(column::<1>(words, second_start + second, angles)),
    })
}
