// Why a word of a paper is refused.
ghost use Rattle.std.specs.Prelude.{◌≡◌, None};
ghost use Rattle.word.specs.Fault.{refusal_number};

#[derive(Clone, Copy, PartialEq, Eq, Debug)]
pub enum WordRefusal {
    // the words stop before the end word
    Stops,
    // a word of this kind cannot stand here
    Kind,
    // the payload or amount is outside its range
    Range,
    // a word follows the end word
    Follows,
}

impl WordRefusal {
    // Its number among the refusals, by which it is shown; inside, the refusal itself is passed on.
    pub fn number(self) -> u32
        ensures { result ≡ refusal_number self }
    {
        match self {
            WordRefusal::Stops => 2,
            WordRefusal::Kind => 3,
            WordRefusal::Range => 4,
            WordRefusal::Follows => 7,
        }
    }
}

// The place counts the words from 0; `first` is the first word of the open record, if one is open.
#[derive(Clone, Copy, PartialEq, Eq, Debug)]
pub struct WordFault {
    pub refusal: WordRefusal,
    pub place: usize,
    pub first: Option<u32>,
}

impl WordFault {
    // A refusal at a place where no record is open.
    pub fn at(refusal: WordRefusal, place: usize) -> WordFault
        ensures { result ≡ record { refusal = refusal; place = place; first = None } }
    {
        WordFault {
            refusal,
            place,
            first: None,
        }
    }
}
