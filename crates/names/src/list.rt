// The names of a table's rows.
ghost use Rattle.std.specs.Prelude.{Decides};
ghost use Rattle.measure.specs.Rows.{HoldsAt, Lowest};
ghost use Rattle.names.specs.Names.{HasName, NamedBefore, Repeats};

use crate::name::{Name, Named};

// The names of the rows of a lent table.
#[derive(Drop)]
pub struct NameList<'a, R> {
    pub rows: &'a [R],
}

impl<'a, R: Named> NameList<'a, R> {
    // The lowest row that has the name, or none.
    pub fn find(&self, sought: &R::Kind) -> Option<usize>
        ensures { Lowest (HoldsAt (HasName R.Kind.same R.name sought.now) self.now.rows.now) result }
    {
        self.rows.iter().position(|row| row.name().is_same(sought))
    }

    // Whether a row before that one has the name.
    fn has_before(&self, row: usize, sought: &R::Kind) -> bool
        ensures { Decides result (NamedBefore R.Kind.same R.name sought.now self.now.rows.now row) }
    {
        self.find(sought).is_some_and(|found| found < row)
    }

    // The lowest row whose name an earlier row has, or none.
    pub fn repeated(&self) -> Option<usize>
        ensures { Lowest (Repeats R.Kind.same R.name self.now.rows.now) result }
    {
        self.rows
            .iter()
            .enumerate()
            .position(|(i, row)| self.has_before(i, &row.name()))
    }
}
