// The records of a case, counted as they are read.
ghost use Rattle.std.specs.Prelude.{◌≡◌, ℕ, ◌+◌, ◌-◌, ◌<◌, ◌≤◌, length, Decides, MatchResult, slice_index, slice_set};
ghost use Rattle.case_paper.specs.Case.{rank, amounts_of};
ghost use Rattle.case_paper.specs.Order.{InOrder};
ghost use Rattle.case_paper.specs.CaseFault.{head_count};
ghost use Rattle.case_paper.specs.Complete.{amounts_read, Rowed, Unsound};

use crate::fault::RecordFault;
use crate::order::in_order;
use crate::state::Open;
use word::kind::payload;

// The words of a case, the rows provided for its bus, stepped, curved and branch records, and how many of each are counted. By the rank of a sort, not
// by name as in `build`, since which count rises is told by a record's sort.
#[derive(Clone, Copy)]
pub struct Tally<'a> {
    pub words: &'a [u32],
    pub rows: &'a [usize; 4],
    pub counts: [usize; 4],
}

impl Tally<'_> {
    // How many records of the sort of this rank the head says, 0 where its word is not there. By `as`: 32 bits have no `From` to a `usize`.
    pub fn head_count(&self, rank: usize) -> usize
        requires { rank < 4 }
        ensures { result ≡ head_count self.now.words.now rank }
    {
        self.words
            .get(2 + rank)
            .map_or(0, |word| payload(*word) as usize)
    }

    // Whether the counts are those that the head says.
    pub fn is_met(&self) -> bool
        ensures { Decides result ((k : ℕ) → k < 4 → slice_index self.now.counts k ≡ head_count self.now.words.now k) }
    {
        self.counts
            .iter()
            .enumerate()
            .all(|(rank, count)| *count == self.head_count(rank))
    }

    // Whether one record more of this sort has a row.
    pub fn has_row(&self, rank: usize) -> bool
        requires { rank < 4 }
        ensures { Decides result ((slice_index self.now.counts rank < head_count self.now.words.now rank) × (slice_index self.now.counts rank < slice_index self.now.rows.now rank)) }
    {
        let count = self.counts[rank];
        count < self.head_count(rank) && count < self.rows[rank]
    }

    // The record whose last amount stands at `place` is in order, and takes a row of its sort; or it is refused and takes none.
    pub(crate) fn complete(&mut self, closed: Open, place: usize) -> Result<(), RecordFault>
        requires { (place < length self.old.words.now) × ((closed.read + 1 ≤ place) × (length (amounts_of closed.sort) ≡ closed.read + 1)) }
        ensures { MatchResult result (λ _. InOrder closed.sort (amounts_read self.old.words.now place closed.read) × Rowed self.old.rows.now self.old.counts self.old.words.now closed.sort × (self.new ≡ record self.old { counts = slice_set self.old.counts (rank closed.sort) (slice_index self.old.counts (rank closed.sort) + 1) })) (λ f. Unsound closed.sort (amounts_read self.old.words.now place closed.read) (Rowed self.old.rows.now self.old.counts self.old.words.now closed.sort) ((place - closed.read) - 1) closed.first f × (self.new ≡ self.old)) }
    {
        let Open { sort, first, read } = closed;
        let start = place - read - 1;
        if !in_order(sort, &self.words[place - read..=place]) {
            return Err(RecordFault::Order {
                place: start,
                first,
            });
        }
        let rank = sort.rank();
        if !self.has_row(rank) {
            return Err(RecordFault::Count {
                place: start,
                first,
            });
        }
        self.counts[rank] += 1;
        Ok(())
    }
}
