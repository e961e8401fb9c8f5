// The run of a file whose bytes are read from a reader and whose text is written to a writer.
ghost use Rattle.std.specs.Prelude.{◌≡◌, IfErr, OnOk};
ghost use Rattle.file_print.specs.Stream.{Streamed, StreamFailed};
ghost use Rattle.file_print.specs.declared.stream.StreamError.TheVariants.{OutOfMemory};

use crate::reading::fill;
use crate::writing::write_flushed;
use file_run::run::run_file;
use paper_file::words::LIMIT;
use std::alloc::{AllocError, Global};
use std::io;
use std::io::{Read, Write};
use thiserror::Error;

// Why a file was not run to its end.
#[derive(Debug, Drop, Error)]
pub enum StreamError {
    #[error("the papers can't be read: {0}")]
    Reading(io::Error),
    #[error("the text can't be written: {0}")]
    Writing(io::Error),
    #[error("memory has run out")]
    OutOfMemory,
}

impl From<AllocError> for StreamError {
    ghost from_gives = { λ _ e. e ≡ OutOfMemory };

    fn from(_error: AllocError) -> StreamError {
        StreamError::OutOfMemory
    }
}

// Runs a panel by the papers in the reader's first 65,536 bytes, and writes all that is printed of them.
pub fn run_stream<R: Read, W: Write>(
    heap: Global,
    reader: &mut R,
    writer: &mut W,
) -> Result<(), StreamError>
    ensures ok { OnOk result (Streamed (R.remaining reader.old) (R.remaining reader.new) (W.contents writer.old) (W.contents writer.new)) }
    ensures err { IfErr result (StreamFailed (R.remaining reader.old) (R.remaining reader.new) (W.contents writer.old) (W.contents writer.new)) }
{
    let mut bytes = [0; LIMIT];
    let filled = match fill(reader, &mut bytes) {
        Ok(filled) => filled,
        Err(e) => return Err(StreamError::Reading(e)),
    };
    let text = run_file(heap, &bytes[..filled])?;
    match write_flushed(writer, &text) {
        Ok(()) => Ok(()),
        Err(e) => Err(StreamError::Writing(e)),
    }
}
