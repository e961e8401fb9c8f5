// The columns of amounts in a paper's words.
ghost use Rattle.std.specs.Prelude.{◌≡◌, ℕ};
ghost use Rattle.word.specs.Column.{value_of, column_value};

use word::column::WordColumn;

// So many amounts from a place on: one after the other, or every second word.
pub(crate) fn column<'a, const STRIDE: usize>(
    words: &'a [u32],
    start: usize,
    count: usize,
) -> WordColumn<'a>
    ensures { (i : ℕ) → value_of result i ≡ column_value words.now start count STRIDE i }
{
    WordColumn {
        words,
        start,
        count,
        stride: STRIDE,
    }
}
