// A page of 256 bytes.
ghost use Rattle.sheet.specs.Blank.{BlankAfter};

// The first `len` bytes are its text, and the others are spaces. All 256 are read, so it is no `ArrayVec`, which shows
// only what was pushed.
#[derive(Clone, Copy)]
pub struct Page {
    pub bytes: [u8; 256],
    pub len: usize,
    ghost ok: { BlankAfter len bytes },
}
