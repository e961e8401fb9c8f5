// The words of a file.
ghost use Rattle.std.specs.Prelude.{◌≡◌, ◌/◌, length, take, Decides, IfOk};
ghost use Rattle.std.specs.Simd.{first_chunks};
ghost use Rattle.word.specs.Word.{bytes_of};
ghost use Rattle.paper_file.specs.Words.{words_in, WordsOfFile};

use std::alloc::{AllocError, Global};
use word::bytes::{file_bytes, file_word};

// So many bytes of a file are read at most.
pub const LIMIT: usize = 65_536;

// The file's first 65,536 bytes by fours; one to three bytes over are dropped.
fn fours(bytes: &[u8]) -> &[[u8; 4]]
    ensures { let read = take 65536 bytes.now in result.now ≡ first_chunks 4 (length read / 4) read }
{
    let read = &bytes[0..bytes.len().min(LIMIT)];
    let (fours, _) = read.as_chunks::<4>();
    fours
}

// The words of the file's first 65,536 bytes, four bytes each; one to three bytes over are dropped.
pub fn words_of(heap: Global, bytes: &[u8]) -> Result<Vec<u32>, AllocError>
    ensures words { IfOk result (λ v. v.items ≡ words_in (take 65536 bytes.now)) }
    ensures bytes { IfOk result (λ v. WordsOfFile v.items bytes.now) }
{
    fours(bytes)
        .iter()
        .map(|four| file_word(*four))
        .collect(heap)
}

// Whether the word is written as these four bytes.
fn has_bytes(word: u32, four: [u8; 4]) -> bool
    ensures { Decides result (bytes_of word ≡ four) }
{
    file_bytes(word) == four
}

// Whether the words are those of the file: as many, and each is written as its four bytes.
pub fn are_words_of(words: &[u32], bytes: &[u8]) -> bool
    ensures { Decides result (words.now ≡ words_in (take 65536 bytes.now)) }
{
    let fours = fours(bytes);
    words.len() == fours.len()
        && words
            .iter()
            .zip(fours)
            .all(|(word, four)| has_bytes(*word, *four))
}
