// What is printed of files, given as words or bytes.
use crate::words::{CASE, DISPATCH, END, TEXT, ZERO, file_of, small_file};
use file_run::run::run_file;
use std::process::Abort;
use std::test::Fail;

// Of these bytes this text is printed.
fn check_text(rt: &(impl Abort + AllocGlobal), bytes: &[u8], due: &[u8]) -> Result<(), Fail> {
    let text = run_file(rt.alloc(), bytes)?;
    assert_eq!(rt; text.as_slice(), due);
    Ok(())
}

#[test]
fn a_dispatch_and_prices(rt: HostRuntime) -> Result<(), Fail> {
    check_text(&rt, &small_file(rt.alloc())?, TEXT)
}

#[test]
fn first_papers_that_are_no_case(rt: HostRuntime) -> Result<(), Fail> {
    check_text(&rt, &[], b"REFUSED 2 0\n")?;
    check_text(&rt, &[0x10, 0, 0], b"REFUSED 2 0\n")?;
    // of another head, and of another kind
    let head = file_of(rt.alloc(), &[&DISPATCH, &CASE])?;
    check_text(&rt, &head, b"REFUSED 4 0\n")?;
    let kind = file_of(rt.alloc(), &[&[ZERO, END], &CASE])?;
    check_text(&rt, &kind, b"REFUSED 3 0\n")
}

// The case has 33 words, the paper of amounts 16,347; so the end word of the dispatch is the word after the 16,384th.
#[test]
fn a_dispatch_cut_at_the_limit(rt: HostRuntime) -> Result<(), Fail> {
    let mut amounts = [ZERO; 16_347];
    amounts[16_346] = END;
    let file = file_of(rt.alloc(), &[&CASE, &amounts, &DISPATCH])?;
    assert_eq!(rt; file.len(), 65_540);
    check_text(
        &rt,
        &file,
        b"CASE\nREFUSED 3 0\nREFUSED 2 4\nWATCH 1\nHELD 0\nPASSED 0\nDECLINED 2\nCHANGES 0\nCOST -\nFLOOR -\nGAP -\n",
    )
}
