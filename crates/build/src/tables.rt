// The tables that a case is built from, the room in the tables that it is built in, and the case that was laid in them.
ghost use Rattle.std.specs.Prelude.{◌≡◌, length};

use crate::rows::{BranchRow, BusRow};
use measure::Watts;
use network::branch::Ends;
use network::size::{BRANCHES, MACHINES};

// What is offered: the tolerance of the balance, buses, machines of two kinds and branches.
#[derive_where(Clone, Copy)]
pub struct Rows<'r, M, N> {
    pub tolerance: Watts,
    pub buses: &'r [BusRow],
    pub first: &'r [M],
    pub second: &'r [N],
    pub branches: &'r [BranchRow],
}

impl<'r, M, N> Rows<'r, M, N> {
    // How many rows there are of each.
    pub(crate) fn sizes(&self) -> Sizes<usize>
        ensures { result ≡ record { buses = length self.now.buses.now; first = length self.now.first.now; second = length self.now.second.now; branches = length self.now.branches.now } }
    {
        Sizes {
            buses: self.buses.len(),
            first: self.first.len(),
            second: self.second.len(),
            branches: self.branches.len(),
        }
    }
}

// A number for each table of a case.
#[derive(Clone, Copy, PartialEq, Eq, Debug)]
pub struct Sizes<T> {
    pub buses: T,
    pub first: T,
    pub second: T,
    pub branches: T,
}

// How many rows each table to be filled has room for: any number.
pub type Room = Sizes<usize>;

// How many rows of each table the case has: so few that 8 bits hold each number.
pub type Counts = Sizes<u8>;

// A case that was laid: the tolerance of its balance in watts, and how many rows of each table are its own.
#[derive(Clone, Copy, PartialEq, Eq, Debug)]
pub struct LaidCase {
    pub tolerance: u32,
    pub counts: Counts,
}

// Where the buses that are named stand: the row of each machine's bus in both groups, and the rows of the buses at the ends of each branch.
// Tables of fixed size, for the largest case: the first rows of each are the case's.
#[derive(Clone, Copy)]
pub struct Places {
    pub first: [u8; MACHINES],
    pub second: [u8; MACHINES],
    pub ends: [Ends; BRANCHES],
}

// What the tests found: the case that is to be laid, and where the buses that it names stand.
#[derive(Clone, Copy)]
pub struct Tested {
    pub laid: LaidCase,
    pub places: Places,
}
