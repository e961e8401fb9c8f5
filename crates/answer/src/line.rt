// Writing lines at the end of a text.
ghost use Rattle.std.specs.Prelude.{◌≡◌, [], ◌∷◌, ◌++◌, IfOk};
ghost use Rattle.std.specs.Io.{StartsWith};
ghost use Rattle.sheet.specs.Lines.{ended};

use itoa::{Buffer, Integer};
use std::alloc::AllocError;

// Writes a line of the word alone.
pub(crate) fn append_word(text: &mut Vec<u8>, word: &[u8]) -> Result<(), AllocError>
    ensures lines { IfOk result (λ _. text.new.items ≡ text.old.items ++ ended (word.now ∷ [])) }
    ensures begins { StartsWith text.new.items text.old.items }
{
    text.extend_from_slice(word)?;
    text.extend_from_slice(b"\n")
}

// Writes the word, a space and the figure.
pub(crate) fn append_figure<I: Integer>(
    text: &mut Vec<u8>,
    word: &[u8],
    figure: I,
) -> Result<(), AllocError>
    ensures lines { IfOk result (λ _. text.new.items ≡ text.old.items ++ (word.now ++ (32 ∷ I.text figure))) }
    ensures begins { StartsWith text.new.items text.old.items }
{
    text.extend_from_slice(word)?;
    text.extend_from_slice(b" ")?;
    text.extend_from_slice(Buffer::new().format(figure).as_bytes())
}

// Writes a line of the word, a space and the figure.
pub(crate) fn append_line<I: Integer>(
    text: &mut Vec<u8>,
    word: &[u8],
    figure: I,
) -> Result<(), AllocError>
    ensures lines { IfOk result (λ _. text.new.items ≡ text.old.items ++ ended ((word.now ++ (32 ∷ I.text figure)) ∷ [])) }
    ensures begins { StartsWith text.new.items text.old.items }
{
    append_figure(text, word, figure)?;
    append_word(text, b"")
}
