// A reader and a writer that move few bytes at a time, are interrupted at every other call, and may fail.
ghost use Rattle.std.specs.Prelude.{Some};

use std::io;
use std::io::{ErrorKind, Read, Write};

// Gives its bytes, at most so many at a time; fails, where that is wanted, in place of its end.
#[derive(Drop)]
pub(crate) struct Pieces<'a> {
    pub bytes: &'a [u8],
    pub most: usize,
    pub fails: bool,
    pub interrupted: bool,
}

impl Read for Pieces<'_> {
    fn read(&mut self, buf: &mut [u8]) -> io::Result<usize> {
        self.interrupted = !self.interrupted;
        if self.interrupted {
            return Err(io::Error::from(ErrorKind::Interrupted));
        }
        if self.fails && self.bytes.is_empty() {
            return Err(io::Error::from(ErrorKind::ConnectionReset));
        }
        let n = self.most.min(buf.len()).min(self.bytes.len());
        let (given, rest) = self.bytes.split_at(n);
        buf[..n].copy_from_slice(given);
        self.bytes = rest;
        Ok(n)
    }
}

// Takes at most so many bytes at a time, and so many in all; then it fails, or takes none.
#[derive(Drop)]
pub(crate) struct Page {
    pub taken: Vec<u8>,
    pub most: usize,
    pub room: usize,
    pub fails: bool,
    pub interrupted: bool,
    pub flushed: bool,
}

impl Write for Page {
    ghost contents = { λ s. Some s.taken.items };

    fn write(&mut self, buf: &[u8]) -> io::Result<usize> {
        self.interrupted = !self.interrupted;
        if self.interrupted {
            return Err(io::Error::from(ErrorKind::Interrupted));
        }
        if self.fails && self.room == 0 {
            return Err(io::Error::from(ErrorKind::BrokenPipe));
        }
        let n = self.most.min(buf.len()).min(self.room);
        self.taken.extend_from_slice(&buf[..n])?;
        self.room -= n;
        self.flushed = false;
        Ok(n)
    }

    fn flush(&mut self) -> io::Result<()> {
        self.flushed = true;
        Ok(())
    }
}
