// Words of a file: four bytes each, the highest first.
ghost use Rattle.std.specs.Prelude.{◌≡◌};
ghost use Rattle.word.specs.Word.{of_bytes, bytes_of};

pub fn file_word(bytes: [u8; 4]) -> u32
    ensures { result ≡ of_bytes bytes }
{
    u32::from_be_bytes(bytes)
}

pub fn file_bytes(word: u32) -> [u8; 4]
    ensures { result ≡ bytes_of word }
{
    word.to_be_bytes()
}
