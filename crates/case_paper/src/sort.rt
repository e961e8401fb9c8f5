// The sorts of record in a case, and what is due in each and in the head.
ghost use Rattle.std.specs.Prelude.{◌≡◌, ◌≤◌, length, Decides};
ghost use Rattle.word.specs.Run.{Due};
ghost use Rattle.case_paper.specs.Case.{amounts_of, head_amounts, FirstWord, sort_of, rank};
ghost use Rattle.case_paper.specs.State.{after_sort};

use machine::limits::MOST_BEND;
use measure::Watts;
use names::number::may_name;
use network::branch::Branch;
use network::size::{BRANCHES, BUSES, MACHINES, TOLERANCE};
use word::kind::{Kind, kind_of, payload};
use word::name::branch_name;
use word::place::Place;
use word::range::{MARK, POWER, PRICE};
use word::slot::Slot;

#[derive(Clone, Copy, PartialEq, Eq, Debug)]
pub enum Sort {
    Bus,
    // a machine with this number of points
    Stepped(usize),
    Curved,
    Branch,
}

// The tolerance, then how many bus, stepped, curved and branch records follow. By `as`, since a constant can't call `From`.
const HEAD: [Slot; 5] = [
    Slot::Amount(0, TOLERANCE),
    Slot::Amount(1, BUSES as i64),
    Slot::Amount(0, MACHINES as i64),
    Slot::Amount(0, MACHINES as i64),
    Slot::Amount(0, BRANCHES as i64),
];

// The demand.
const BUS: [Slot; 1] = [POWER];

// The limits, the cost at 0 in millions (its range has the numbers of a power's), the slope there, the bend.
const CURVED: [Slot; 5] = [POWER, POWER, POWER, PRICE, Slot::Amount(1, MOST_BEND)];

// Susceptance, shift, rating, least and most angle difference, service mark.
const BRANCH: [Slot; 6] = [
    Slot::Amount(1, Branch::MOST_SUSCEPTANCE),
    Slot::Amount(-Branch::SHIFT_LIMIT, Branch::SHIFT_LIMIT),
    Slot::Amount(0, Watts::LIMIT),
    Slot::Amount(-Branch::DIFFERENCE_LIMIT, Branch::DIFFERENCE_LIMIT),
    Slot::Amount(-Branch::DIFFERENCE_LIMIT, Branch::DIFFERENCE_LIMIT),
    MARK,
];

// What is due after so many amounts of the head, or nothing where it is complete.
pub fn head_slot(read: usize) -> Option<Slot>
    ensures { Due head_amounts read result }
{
    HEAD.get(read).copied()
}

impl Sort {
    // The sort of record that a word begins. Neither `From` nor an option: `opens_record` tests a word first, and this can't fail.
    pub fn of(word: u32) -> Sort
        ensures { result ≡ sort_of word }
    {
        match kind_of(word) {
            Kind::Bus => Sort::Bus,
            // By `as`: 32 bits have no `From` to a `usize`.
            Kind::Stepped => Sort::Stepped((payload(word) / 256) as usize),
            Kind::Curved => Sort::Curved,
            _ => Sort::Branch,
        }
    }

    // Its number in a table of counts: an array is read and raised by a number, four named counts by a match each time.
    pub fn rank(self) -> usize
        ensures { result ≡ rank self }
    {
        match self {
            Sort::Bus => 0,
            Sort::Stepped(_) => 1,
            Sort::Curved => 2,
            Sort::Branch => 3,
        }
    }

    // The place after a record of this sort.
    pub fn place_after(self) -> Place
        ensures { result ≡ after_sort self }
    {
        match self {
            Sort::Bus => Place::Buses,
            Sort::Stepped(_) => Place::Stepped,
            Sort::Curved => Place::Curved,
            Sort::Branch => Place::Branches,
        }
    }

    // How many amounts a record of this sort has.
    pub fn amount_count(self) -> usize
        requires { length (amounts_of self) ≤ 18 }
        ensures { result ≡ length (amounts_of self) }
    {
        match self {
            Sort::Bus => BUS.len(),
            Sort::Stepped(n) => 3 + n + n.saturating_sub(1),
            Sort::Curved => CURVED.len(),
            Sort::Branch => BRANCH.len(),
        }
    }

    // What is due after so many amounts of a record, or nothing where it is complete.
    pub fn slot(self, read: usize) -> Option<Slot>
        ensures { Due (amounts_of self) read result }
    {
        match self {
            Sort::Bus => BUS.get(read).copied(),
            Sort::Stepped(n) => stepped_slot(n, read),
            Sort::Curved => CURVED.get(read).copied(),
            Sort::Branch => BRANCH.get(read).copied(),
        }
    }
}

// Limits, first cost in millions and points, all in the range of a power's numbers; then the slopes.
fn stepped_slot(n: usize, read: usize) -> Option<Slot>
    ensures { Due (amounts_of (Sort.Stepped n)) read result }
{
    if read < 3 || read - 3 < n {
        Some(POWER)
    } else if read - 3 - n < n.saturating_sub(1) {
        Some(PRICE)
    } else {
        None
    }
}

// Whether the word begins a record, its payload in range.
pub fn opens_record(word: u32) -> bool
    ensures { Decides result (FirstWord (sort_of word) word) }
{
    let p = payload(word);
    match kind_of(word) {
        // 2 to 8 points, as a number in a word; `MOST_POINTS` is the length of an array.
        Kind::Stepped => (2..=8).contains(&(p / 256)) && may_name(p % 256),
        Kind::Bus | Kind::Curved => may_name(p),
        Kind::Branch => branch_name(word).is_in_range(),
        _ => false,
    }
}
