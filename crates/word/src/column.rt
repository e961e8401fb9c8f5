// Columns of amounts in a paper's words.
ghost use Rattle.std.specs.Prelude.{◌≡◌, pos, MatchOption};
ghost use Rattle.word.specs.Word.{amount_of};
ghost use Rattle.word.specs.Column.{value_of};

use crate::amount::amount;
use measure::column::Column;

// The amounts in so many words of a paper, from a place on, at steps of `stride`; 0 past its end. Not a slice of these words by `step_by`: a
// paper may end before the place, and a row is then read as 0.
#[derive(Clone, Copy, Drop)]
pub struct WordColumn<'a> {
    pub words: &'a [u32],
    pub start: usize,
    pub count: usize,
    pub stride: usize,
}

impl<'a> WordColumn<'a> {
    // The row's word, or nothing past the count or the last word.
    fn word(&self, row: usize) -> Option<u32>
        ensures { MatchOption result (value_of self.now row ≡ pos 0) (λ w. value_of self.now row ≡ amount_of w) }
    {
        if row >= self.count {
            return None;
        }
        let offset = self.stride.checked_mul(row)?;
        let place = self.start.checked_add(offset)?;
        self.words.get(place).copied()
    }
}

impl<'a> Column for WordColumn<'a> {
    ghost value = { value_of };

    fn at(&self, row: usize) -> i64 {
        self.word(row).map_or(0, amount)
    }
}
