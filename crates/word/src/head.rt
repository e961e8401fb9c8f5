// What a paper is: the payload of its head.
ghost use Rattle.std.specs.Prelude.{◌≡◌};
ghost use Rattle.word.specs.Head.{head_number, head_numbered};

#[derive(Clone, Copy, PartialEq, Eq, Debug)]
pub enum Head {
    Case = 1,
    Dispatch = 2,
    Prices = 3,
    Demand = 4,
    Mark = 5,
    Trial = 6,
    HandOver = 7,
}

impl Head {
    // Its payload, by the enum's own number. By `as`: an enum has no `From` to its number.
    pub fn number(self) -> u32
        ensures { result ≡ head_number self }
    {
        self as u32
    }

    // The head with this payload, if one has it: a match, since no cast leads back from a number, and no
    // `TryFrom`, whose error would be a type with one value.
    pub fn of(payload: u32) -> Option<Head>
        ensures { result ≡ head_numbered payload }
    {
        match payload {
            1 => Some(Head::Case),
            2 => Some(Head::Dispatch),
            3 => Some(Head::Prices),
            4 => Some(Head::Demand),
            5 => Some(Head::Mark),
            6 => Some(Head::Trial),
            7 => Some(Head::HandOver),
            _ => None,
        }
    }
}
