// Columns of whole numbers, read by row: the powers, angles and prices that a table or a paper gives.
ghost use Rattle.std.specs.Prelude.{◌≡◌, ℕ, ℤ, pos, slice_index_or};

// A trait, not a closure: a contract speaks of a column's number as of a function of the row, where a closure's answer is a relation.
pub trait Column {
    // the number in each row
    ghost value: { Self → ℕ → ℤ };

    // The number in that row.
    fn at(&self, row: usize) -> i64
        ensures { result ≡ value self.now row };
}

// A column lent as a table; 0 past its end.
#[derive(Clone, Copy, Drop)]
pub struct Table<'a> {
    pub values: &'a [i64],
}

impl<'a> Column for Table<'a> {
    ghost value = { λ t i. slice_index_or t.values.now i (pos 0) };

    fn at(&self, row: usize) -> i64 {
        self.values.get(row).copied().unwrap_or(0)
    }
}

// A column that is only lent is read as it is: what takes a column by value takes one that is lent to its caller, too.
impl<'b, C: Column> Column for &'b C {
    ghost value = { λ c. C.value c.now };

    fn at(&self, row: usize) -> i64 {
        (*self).at(row)
    }
}
