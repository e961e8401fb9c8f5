// Why a case is refused: a word's fault, inside a record's, inside a case's.
ghost use Rattle.std.specs.Prelude.{◌≡◌};
ghost use Rattle.case_paper.specs.declared.fault.RecordFault.TheVariants.{Word};
ghost use Rattle.case_paper.specs.declared.fault.CaseFault.TheVariants.{Record};
ghost use Rattle.case_paper.specs.Fault.{record_number, record_place, record_open_word, case_number, case_place, case_open_word};

use word::fault::WordFault;

#[derive(Clone, Copy, PartialEq, Eq, Debug)]
pub enum RecordFault {
    Word(WordFault),
    // a complete record has crossed limits, points not rising or slopes falling; `first` is its first word
    Order { place: usize, first: u32 },
    // a complete record exceeds its count or the rows provided
    Count { place: usize, first: u32 },
}

#[derive(Clone, Copy, PartialEq, Eq, Debug)]
pub enum CaseFault {
    Record(RecordFault),
    // the name in this row repeats an earlier one
    Repeats(usize),
    // this row names a bus that is not there, or the same bus at both ends
    Lacks(usize),
}

impl From<WordFault> for RecordFault {
    ghost from_gives = { λ f r. r ≡ Word f };

    fn from(f: WordFault) -> RecordFault {
        RecordFault::Word(f)
    }
}

impl From<RecordFault> for CaseFault {
    ghost from_gives = { λ f r. r ≡ Record f };

    fn from(f: RecordFault) -> CaseFault {
        CaseFault::Record(f)
    }
}

impl RecordFault {
    // Its number among the refusals, by which it is shown.
    pub fn number(self) -> u32
        ensures { result ≡ record_number self }
    {
        match self {
            RecordFault::Word(f) => f.refusal.number(),
            RecordFault::Order { .. } => 5,
            RecordFault::Count { .. } => 6,
        }
    }

    // The word at which it is refused.
    pub fn place(self) -> usize
        ensures { result ≡ record_place self }
    {
        match self {
            RecordFault::Word(f) => f.place,
            RecordFault::Order { place, .. } | RecordFault::Count { place, .. } => place,
        }
    }

    // The first word of the open record, 0 where none is open.
    pub fn open_word(self) -> u32
        ensures { result ≡ record_open_word self }
    {
        match self {
            RecordFault::Word(f) => f.first.unwrap_or(0),
            RecordFault::Order { first, .. } | RecordFault::Count { first, .. } => first,
        }
    }
}

impl CaseFault {
    // Its number among the refusals, by which it is shown.
    pub fn number(self) -> u32
        ensures { result ≡ case_number self }
    {
        match self {
            CaseFault::Record(f) => f.number(),
            CaseFault::Repeats(_) => 8,
            CaseFault::Lacks(_) => 9,
        }
    }

    // The word or the row at which it is refused.
    pub fn place(self) -> usize
        ensures { result ≡ case_place self }
    {
        match self {
            CaseFault::Record(f) => f.place(),
            CaseFault::Repeats(row) | CaseFault::Lacks(row) => row,
        }
    }

    // The first word of the open record, 0 where none is open.
    pub fn open_word(self) -> u32
        ensures { result ≡ case_open_word self }
    {
        match self {
            CaseFault::Record(f) => f.open_word(),
            CaseFault::Repeats(_) | CaseFault::Lacks(_) => 0,
        }
    }
}
