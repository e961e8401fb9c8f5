// Amounts: numbers in a word's payload, in two's complement of 28 bits.
ghost use Rattle.std.specs.Prelude.{◌≡◌};
ghost use Rattle.word.specs.Word.{amount_of, amount_word};

use crate::kind::{Kind, word_of};

// The payload as a signed number: its top bit is moved to the word's, and back with the sign.
#[tactic(auto, unfolding(crate::specs::Word::amount_of))]
pub fn amount(word: u32) -> i64
    ensures { result ≡ amount_of word }
{
    i64::from((word << 4).cast_signed() >> 4)
}

// The amount word of a number, by its low 28 bits.
pub fn amount_word(x: i64) -> u32
    ensures { result ≡ amount_word x }
{
    word_of(Kind::Amount, (x.cast_unsigned() & 0x0fff_ffff) as u32)
}
