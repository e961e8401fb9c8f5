// A word: its kind in the top four bits, its payload in the low 28.
ghost use Rattle.std.specs.Prelude.{◌≡◌, ◌^◌, ◌<◌};
ghost use Rattle.word.specs.Word.{kind_number, kind_of, payload_of, word_of};

#[derive(Clone, Copy, PartialEq, Eq, Debug)]
pub enum Kind {
    // no word of a paper has it; but any word's kind is read, and the table of places has its column
    Unknown = 0,
    Head = 1,
    Bus = 2,
    Stepped = 3,
    Curved = 4,
    Branch = 5,
    Amount = 6,
    End = 7,
}

impl Kind {
    // Its top four bits, by the enum's own number; 0 for the kind that no word of a paper has. By `as`: an enum has no `From` to its number.
    pub fn number(self) -> u32
        ensures { result ≡ kind_number self }
    {
        self as u32
    }
}

// The kind by the top four bits: a match, since no cast leads back from a number; not `From`, for the amount and
// the payload are parts of the word as well.
#[tactic(auto, unfolding(crate::specs::Word::kind_of))]
pub fn kind_of(word: u32) -> Kind
    ensures { result ≡ kind_of word }
{
    match word >> 28 {
        1 => Kind::Head,
        2 => Kind::Bus,
        3 => Kind::Stepped,
        4 => Kind::Curved,
        5 => Kind::Branch,
        6 => Kind::Amount,
        7 => Kind::End,
        _ => Kind::Unknown,
    }
}

#[tactic(auto, using(std::proofs::lemmas::Nat::and_mask))]
pub fn payload(word: u32) -> u32
    ensures { result ≡ payload_of word }
{
    word & 0x0fff_ffff
}

// The word of this kind with the low 28 bits of that number.
pub fn word_of(kind: Kind, number: u32) -> u32
    ensures { result ≡ word_of kind (payload_of number) }
{
    kind.number() << 28 | payload(number)
}
