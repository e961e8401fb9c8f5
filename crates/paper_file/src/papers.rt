// Where the papers among the words of a file end.
ghost use Rattle.std.specs.Prelude.{◌≡◌, position};
ghost use Rattle.paper_file.specs.Papers.{is_end, FirstPaper};

use word::kind::{Kind, kind_of};

// The place of the first end word.
fn first_end(words: &[u32]) -> Option<usize>
    ensures { result ≡ position is_end words.now }
{
    words.iter().position(|word| kind_of(*word) == Kind::End)
}

// How many words the first paper has: up to and with the first end word, or all of them where there is none.
pub fn paper_len(words: &[u32]) -> usize
    ensures { FirstPaper words.now result }
{
    first_end(words).map_or(words.len(), |i| i + 1)
}
