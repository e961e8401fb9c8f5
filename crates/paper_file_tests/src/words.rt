// Bytes and the words in them.
use paper_file::words::{are_words_of, words_of};
use std::test::Fail;

#[test]
fn highest_byte_first(rt: HostRuntime) -> Result<(), Fail> {
    let words = words_of(rt.alloc(), &[0x10, 0, 0, 2, 0x6f, 0xff, 0xff, 0xc4])?;
    assert_eq!(rt; words.as_slice(), [0x1000_0002, 0x6fff_ffc4].as_slice());
    Ok(())
}

#[test]
fn bytes_over(rt: HostRuntime) -> Result<(), Fail> {
    let none = words_of(rt.alloc(), &[])?;
    assert_eq!(rt; none.len(), 0);
    let short = words_of(rt.alloc(), &[0x70, 0, 0])?;
    assert_eq!(rt; short.len(), 0);
    let over = words_of(rt.alloc(), &[0x70, 0, 0, 9, 0x70, 0, 0])?;
    assert_eq!(rt; over.as_slice(), [0x7000_0009].as_slice());
    Ok(())
}

#[test]
fn a_long_file(rt: HostRuntime) -> Result<(), Fail> {
    let bytes = [0x61; 65_544];
    let words = words_of(rt.alloc(), &bytes)?;
    assert_eq!(rt; words.len(), 16_384);
    assert!(rt; are_words_of(&words, &bytes));
    let shorter = words_of(rt.alloc(), &bytes[0..65_535])?;
    assert_eq!(rt; shorter.len(), 16_383);
    Ok(())
}

#[test]
fn read_words_have_the_bytes(rt: HostRuntime) -> Result<(), Fail> {
    let files: [&[u8]; 5] = [
        &[],
        &[0x70, 0, 0],
        &[0x10, 0, 0, 2],
        &[0x10, 0, 0, 2, 0x6f, 0xff, 0xff, 0xc4, 0x70, 0, 0, 0],
        &[
            0x10, 0, 0, 2, 0xff, 0xfe, 0xfd, 0xfc, 0x70, 0, 0, 0, 9, 8, 7,
        ],
    ];
    for file in files.iter() {
        let words = words_of(rt.alloc(), file)?;
        assert!(rt; are_words_of(&words, file));
    }
    Ok(())
}

#[test]
fn other_words_are_refused(rt: HostRuntime) {
    let file = [0x10, 0, 0, 2, 0x6f, 0xff, 0xff, 0xc4, 0x70, 0, 0];
    assert!(rt; are_words_of(&[0x1000_0002, 0x6fff_ffc4], &file));
    // in another order, one too few, one too many, one bit off, and with the lowest byte first
    assert!(rt; !are_words_of(&[0x6fff_ffc4, 0x1000_0002], &file));
    assert!(rt; !are_words_of(&[0x1000_0002], &file));
    assert!(rt; !are_words_of(&[0x1000_0002, 0x6fff_ffc4, 0x7000_0000], &file));
    assert!(rt; !are_words_of(&[0x1000_0003, 0x6fff_ffc4], &file));
    assert!(rt; !are_words_of(&[0x0200_0010, 0xc4ff_ff6f], &file));
    assert!(rt; are_words_of(&[], &[0x70, 0, 0]));
    assert!(rt; !are_words_of(&[0x7000_0000], &[0x70, 0, 0]));
    assert!(rt; !are_words_of(&[0], &[]));
}
