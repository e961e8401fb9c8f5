// Files through readers and writers that move few bytes at a time, and that fail.
use crate::fakes::{Page, Pieces};
use crate::words::{TEXT, small_file};
use file_print::stream::{StreamError, run_stream};
use std::alloc::Global;
use std::process::Abort;
use std::test::Fail;

// A page that takes at most so many bytes at a time, and so many in all.
fn page(heap: Global, most: usize, room: usize, fails: bool) -> Page {
    Page {
        taken: Vec::new(heap),
        most,
        room,
        fails,
        interrupted: false,
        flushed: false,
    }
}

// The bytes, at most so many at a time.
fn pieces(bytes: &[u8], most: usize, fails: bool) -> Pieces<'_> {
    Pieces {
        bytes,
        most,
        fails,
        interrupted: false,
    }
}

#[test]
fn short_reads_and_writes(rt: HostRuntime) -> Result<(), Fail> {
    let file = small_file(rt.alloc())?;
    for (read, written) in [(1, 1), (3, 5), (7, 1_000)] {
        let mut reader = pieces(&file, read, false);
        let mut writer = page(rt.alloc(), written, 1_000, false);
        assert!(rt; run_stream(rt.alloc(), &mut reader, &mut writer).is_ok());
        assert_eq!(rt; writer.taken.as_slice(), TEXT);
        assert!(rt; writer.flushed);
    }
    Ok(())
}

#[test]
fn known_bytes(rt: HostRuntime) -> Result<(), Fail> {
    let file = small_file(rt.alloc())?;
    let mut text = Vec::new(rt.alloc());
    text.extend_from_slice(b"before\n")?;
    assert!(rt; run_stream(rt.alloc(), &mut file.as_slice(), &mut text).is_ok());
    assert!(rt; text.starts_with(b"before\nCASE\n"));
    assert_eq!(rt; text.len(), 7 + TEXT.len());
    Ok(())
}

#[test]
fn a_read_that_fails(rt: HostRuntime) -> Result<(), Fail> {
    let file = small_file(rt.alloc())?;
    let mut reader = pieces(&file, 7, true);
    let mut writer = page(rt.alloc(), 5, 1_000, false);
    let answer = run_stream(rt.alloc(), &mut reader, &mut writer);
    assert!(rt; matches!(answer, Err(StreamError::Reading(_))));
    assert_eq!(rt; writer.taken.len(), 0);
    Ok(())
}

#[test]
fn writes_that_fail(rt: HostRuntime) -> Result<(), Fail> {
    let file = small_file(rt.alloc())?;
    for fails in [true, false] {
        let mut reader = pieces(&file, 7, false);
        let mut writer = page(rt.alloc(), 5, 12, fails);
        let answer = run_stream(rt.alloc(), &mut reader, &mut writer);
        assert!(rt; matches!(answer, Err(StreamError::Writing(_))));
        assert_eq!(rt; writer.taken.as_slice(), b"CASE\nHELD 24".as_slice());
    }
    Ok(())
}

// The byte after the 65,536th stays in the reader.
#[test]
fn one_byte_more_than_the_limit(rt: HostRuntime) -> Result<(), Fail> {
    let bytes = [0u8; 65_537];
    let mut reader = pieces(&bytes, 1_000, true);
    let mut writer = page(rt.alloc(), 1_000, 1_000, false);
    assert!(rt; run_stream(rt.alloc(), &mut reader, &mut writer).is_ok());
    assert_eq!(rt; reader.bytes.len(), 1);
    assert_eq!(rt; writer.taken.as_slice(), b"REFUSED 3 0\n".as_slice());
    Ok(())
}
