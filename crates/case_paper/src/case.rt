// The reader of a case.
ghost use Rattle.std.specs.Prelude.{◌≡◌, None, MatchResult};
ghost use Rattle.word.specs.declared.fault.WordRefusal.TheVariants.{Kind as KindRefusal};
ghost use Rattle.case_paper.specs.Complete.{Counted, Ending};
ghost use Rattle.case_paper.specs.CaseFault.{LawfulCase, RefusedCase, RefusedRead};
ghost use Rattle.case_paper.specs.State.{Closes};

use crate::count::Tally;
use crate::fault::*;
use crate::state::{Open, State};
use word::fault::{WordFault, WordRefusal};
use word::kind::{Kind, kind_of};

// The record that a word completes, with the amounts read before that word.
fn closed_by(was: State, is: State) -> Option<Open>
    ensures { Closes was is result }
{
    match (was, is) {
        (State::Amounts(open), State::Next(_)) => Some(open),
        _ => None,
    }
}

// An end word stands only where the head's counts are met.
fn end_in_time(tally: &Tally<'_>, state: State, place: usize, word: u32) -> Result<(), WordFault>
    ensures { MatchResult result (λ _. Ending state word → Counted tally.now.counts tally.now.words.now) (λ f. Ending state word × (Counted tally.now.counts tally.now.words.now → ⊥) × (f.refusal ≡ KindRefusal) × (f.place ≡ place) × (f.first ≡ None)) }
{
    match (state, kind_of(word)) {
        (State::Next(_), Kind::End) if !tally.is_met() => {
            Err(WordFault::at(WordRefusal::Kind, place))
        }
        _ => Ok(()),
    }
}

// Refuses the words unless they are a lawful case, for tables of so many bus, stepped, curved and branch rows.
pub fn check_records(words: &[u32], rows: &[usize; 4]) -> Result<(), RecordFault>
    ensures { MatchResult result (λ _. LawfulCase rows.now words.now) (λ f. RefusedCase rows.now words.now f) }
{
    let mut state = State::Head;
    let mut tally = Tally {
        words,
        rows,
        counts: [0; 4],
    };
    // The place is part of the fault.
    for (place, word) in words.iter().enumerate() {
        let was = state;
        end_in_time(&tally, state, place, *word)?;
        state.step(place, *word)?;
        if let Some(closed) = closed_by(was, state) {
            tally.complete(closed, place)?;
        }
    }
    match state {
        State::Done => Ok(()),
        _ => Err(RecordFault::from(state.fault(WordRefusal::Stops, words.len()))),
    }
}

// A checked case, as it stands in its words. That they are lawful is said by who makes one: a ghost field would ask for it each time.
#[derive(Clone, Copy, Drop)]
pub struct CasePaper<'a> {
    pub words: &'a [u32],
}

// Reads a case wholly; nothing is written.
pub fn check_case<'a>(words: &'a [u32], rows: &[usize; 4]) -> Result<CasePaper<'a>, CaseFault>
    ensures { MatchResult result (λ p. (p.words.now ≡ words.now) × LawfulCase rows.now words.now) (λ f. RefusedRead rows.now words.now f) }
{
    check_records(words, rows)?;
    Ok(CasePaper { words })
}
