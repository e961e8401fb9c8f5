// The reader's own state: its place in a case, and what is open.
ghost use Rattle.std.specs.Prelude.{◌≡◌, Decides, MatchOption, MatchResult};
ghost use Rattle.word.specs.Slot.{InRange};
ghost use Rattle.case_paper.specs.State.{state_place, open_first, Ranges, next, Takes, Missteps, Good};

use crate::sort::{Sort, head_slot, opens_record};
use word::fault::{WordFault, WordRefusal};
use word::head::Head;
use word::kind::{Kind, kind_of, payload};
use word::place::{Place, may_stand};
use word::slot::Slot;

// A record that is open: its sort, its first word, and how many of its amounts are read.
#[derive(Clone, Copy)]
pub struct Open {
    pub sort: Sort,
    pub first: u32,
    pub read: usize,
}

#[derive(Clone, Copy)]
pub enum State {
    // the head is due
    Head,
    // an amount of the head is due, after so many
    Counts(usize),
    // a record or the end word is due
    Next(Place),
    // an amount of this record is due
    Amounts(Open),
    Done,
}

// Whether the word fills the slot that is due.
fn fills(slot: Option<Slot>, word: u32) -> bool
    ensures { Decides result (MatchOption slot ⊥ (λ s. InRange s word)) }
{
    slot.is_some_and(|slot| slot.holds(word))
}

impl State {
    pub fn place(self) -> Place
        ensures { result ≡ state_place self }
    {
        match self {
            State::Head => Place::Head,
            State::Counts(_) | State::Amounts(_) => Place::Amount,
            State::Next(p) => p,
            State::Done => Place::End,
        }
    }

    // The first word of the open record, if one is open.
    pub fn open(self) -> Option<u32>
        ensures { result ≡ open_first self }
    {
        match self {
            State::Amounts(open) => Some(open.first),
            _ => None,
        }
    }

    // A refusal at a place, with the record that is open.
    pub fn fault(self, refusal: WordRefusal, place: usize) -> WordFault
        ensures { result ≡ record { refusal = refusal; place = place; first = open_first self } }
    {
        WordFault {
            refusal,
            place,
            first: self.open(),
        }
    }

    // Whether a word whose kind may stand is in range. Each step asks for `Good`: an enum bears no invariant.
    fn has_range(self, word: u32) -> bool
        requires { Good self }
        ensures { Decides result (Ranges self word) }
    {
        match (self, kind_of(word)) {
            (State::Head, _) => payload(word) == Head::Case.number(),
            (State::Counts(read), _) => fills(head_slot(read), word),
            (State::Next(_), Kind::End) => payload(word) == 0,
            (State::Next(_), _) => opens_record(word),
            (State::Amounts(open), _) => fills(open.sort.slot(open.read), word),
            (State::Done, _) => false,
        }
    }

    // Goes to the place after a word that it takes.
    fn advance(&mut self, word: u32)
        requires { Good self.old }
        ensures { self.new ≡ next self.old word }
    {
        *self = match (*self, kind_of(word)) {
            (State::Head, _) => State::Counts(0),
            (State::Counts(read), _) => {
                let read = read + 1;
                if head_slot(read).is_some() {
                    State::Counts(read)
                } else {
                    State::Next(Place::Buses)
                }
            }
            (State::Next(_), Kind::End) => State::Done,
            (State::Next(_), _) => State::Amounts(Open {
                sort: Sort::of(word),
                first: word,
                read: 0,
            }),
            (State::Amounts(open), _) => {
                let read = open.read + 1;
                if open.sort.slot(read).is_some() {
                    State::Amounts(Open { read, ..open })
                } else {
                    State::Next(open.sort.place_after())
                }
            }
            (State::Done, _) => State::Done,
        };
    }

    // Takes the word at `place`, or refuses it and stays.
    pub fn step(&mut self, place: usize, word: u32) -> Result<(), WordFault>
        requires { Good self.old }
        ensures { MatchResult result (λ _. Takes self.old word × (self.new ≡ next self.old word)) (λ f. (self.new ≡ self.old) × Missteps self.old word f.refusal × (f.place ≡ place) × (f.first ≡ open_first self.old)) }
    {
        if matches!(*self, State::Done) {
            return Err(self.fault(WordRefusal::Follows, place));
        }
        if !may_stand(self.place(), kind_of(word)) {
            return Err(self.fault(WordRefusal::Kind, place));
        }
        if !self.has_range(word) {
            return Err(self.fault(WordRefusal::Range, place));
        }
        self.advance(word);
        Ok(())
    }
}
