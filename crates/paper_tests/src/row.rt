// A row of a table: words, and whether they are a lawful paper or how they are refused.
use case_paper::shown::Shown;
use std::process::Abort;

// The amount word of 0, and the end word, as numbers: by the functions of `word` they would be made by what is tested.
pub const A: u32 = 0x6000_0000;

pub const END: u32 = 0x7000_0000;

#[derive(Clone, Copy, Drop)]
pub struct Row<'a> {
    pub words: &'a [u32],
    pub outcome: Result<(), Shown>,
}

// A lawful paper.
pub fn lawful<'a>(words: &'a [u32]) -> Row<'a> {
    Row {
        words,
        outcome: Ok(()),
    }
}

// Words that are refused so.
pub fn expect<'a>(words: &'a [u32], number: u32, place: usize) -> Row<'a> {
    Row {
        words,
        outcome: Err(Shown { number, place }),
    }
}

// What a reader makes of words, whatever it reads.
pub fn outcome<T: Drop, F: Into<Shown>>(read: Result<T, F>) -> Result<(), Shown> {
    read.map(|_| ()).map_err(F::into)
}

// The reader makes of the words of each row what the row says.
pub fn check_rows<F: Fn(&[u32]) -> Result<(), Shown>>(rt: &impl Abort, table: &[Row], reader: F)
    requires { F.IsAlwaysCallable reader }
{
    for row in table {
        assert_eq!(rt; reader(row.words), row.outcome);
    }
}
