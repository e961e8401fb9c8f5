// The rows of a case as its records give them, before any name is looked up.
ghost use Rattle.std.specs.Prelude.{List, [], ◌∷◌, ◌++◌};
ghost use Rattle.case_paper.specs.Case.{Record, Formed};
ghost use Rattle.case_tables.specs.Rows.{record_of, Offers};
ghost use Rattle.case_tables.specs.Held.{Holds, HasPlace};

use crate::record::RecordWords;
use arrayvec::ArrayVec;
use build::rows::{BranchRow, BusRow};
use build::tables::Rows;
use case_paper::sort::Sort;
use curved::curved::Curved;
use measure::Watts;
use network::size::{BRANCHES, BUSES, MACHINES};
use stepped::stepped::Stepped;

// The rows of a case, with places for the largest.
#[derive(Drop)]
pub(crate) struct CaseRows {
    pub(crate) buses: ArrayVec<BusRow, BUSES>,
    pub(crate) stepped: ArrayVec<Stepped, MACHINES>,
    pub(crate) curved: ArrayVec<Curved, MACHINES>,
    pub(crate) branches: ArrayVec<BranchRow, BRANCHES>,
}

impl CaseRows {
    // No rows yet.
    pub(crate) fn empty() -> CaseRows
        ensures { Holds result [] }
    {
        CaseRows {
            buses: ArrayVec::new(),
            stepped: ArrayVec::new(),
            curved: ArrayVec::new(),
            branches: ArrayVec::new(),
        }
    }

    // Keeps the row of one record more.
    pub(crate) fn push(&mut self, words: &RecordWords<'_>)
        requires formed { Formed (record_of words.now.sort words.now.first words.now.amounts.now) }
        requires place { HasPlace self.old words.now.sort }
        ensures { (rs : List Record) → Holds self.old rs → Holds self.new (rs ++ (record_of words.now.sort words.now.first words.now.amounts.now ∷ [])) }
    {
        match words.sort {
            Sort::Bus => self.buses.push(words.bus_row()),
            Sort::Stepped(n) => self.stepped.push(words.stepped_row(n)),
            Sort::Curved => self.curved.push(words.curved_row()),
            Sort::Branch => self.branches.push(words.branch_row()),
        }
    }

    // The rows, offered at a tolerance.
    pub(crate) fn offer(&self, tolerance: Watts) -> Rows<Stepped, Curved>
        ensures { (rs : List Record) → Holds self.now rs → Offers tolerance.0 rs result }
    {
        Rows {
            tolerance,
            buses: self.buses.as_slice(),
            first: self.stepped.as_slice(),
            second: self.curved.as_slice(),
            branches: self.branches.as_slice(),
        }
    }
}
