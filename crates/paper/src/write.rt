// A dispatch written out into a lent list of words.
ghost use Rattle.std.specs.Prelude.{◌≡◌, ◌+◌, ◌<◌, ◌≤◌, ◌++◌, map, length, take, drop, MatchResult};
ghost use Rattle.word.specs.Word.{amount_word};
ghost use Rattle.paper.specs.Dispatch.{dispatch_words};
ghost use Rattle.paper.specs.Write.{write_number, write_place, Writes};
ghost use Rattle.paper.specs.declared.write.WriteRefusal.TheVariants.{TooShort};

use word::amount::amount_word;
use word::head::Head;
use word::kind::{Kind, word_of};

// Why a dispatch is not written.
#[derive(Clone, Copy, PartialEq, Eq, Debug)]
pub enum WriteRefusal {
    // the list is too short for its words
    TooShort,
}

impl WriteRefusal {
    // Its number among the refusals, by which it is shown.
    pub fn number(self) -> u32
        ensures { result ≡ write_number self }
    {
        match self {
            WriteRefusal::TooShort => 18,
        }
    }

    // Where the fault stands: the list has no word at fault.
    pub fn place(self) -> usize
        ensures { result ≡ write_place self }
    {
        match self {
            WriteRefusal::TooShort => 0,
        }
    }
}

// Writes the table as amount words from place `from` of the list.
fn put_amounts(table: &[i64], from: usize, list: &mut [u32])
    requires { from + length table.now ≤ length list.old }
    ensures { list.new ≡ take from list.old ++ (map amount_word table.now ++ drop (from + length table.now) list.old) }
{
    // By place: of what `iter_mut` lends only the length is known afterwards.
    for (i, x) in table.iter().enumerate() {
        list[from + i] = amount_word(*x);
    }
}

// Writes a dispatch into the list, and returns the number of its words; later words stay as they were.
pub fn write_dispatch(
    powers: &[i64],
    angles: &[i64],
    list: &mut [u32],
) -> Result<usize, WriteRefusal>
    ensures { MatchResult result (λ n. Writes powers.now angles.now list.old n list.new) (λ e. (e ≡ TooShort) × (length list.old < length powers.now + length angles.now + 2) × (list.new ≡ list.old)) }
{
    let end = 1 + powers.len() + angles.len();
    if list.len() <= end {
        return Err(WriteRefusal::TooShort);
    }
    list[0] = word_of(Kind::Head, Head::Dispatch.number());
    put_amounts(powers, 1, list);
    put_amounts(angles, 1 + powers.len(), list);
    list[end] = word_of(Kind::End, 0);
    Ok(end + 1)
}
