// Words and bytes.
use word::amount::{amount, amount_word};
use word::bytes::{file_bytes, file_word};
use word::kind::{Kind, kind_of, payload};

#[test]
fn words(rt: HostRuntime) {
    assert_eq!(rt; kind_of(0x5001_0203), Kind::Branch);
    assert_eq!(rt; kind_of(0xf000_0000), Kind::Unknown);
    assert_eq!(rt; payload(0x5001_0203), 0x1_0203);
    assert_eq!(rt; amount(0x67ff_ffff), 134_217_727);
    assert_eq!(rt; amount(0x6800_0000), -134_217_728);
    assert_eq!(rt; amount_word(-1), 0x6fff_ffff);
    assert_eq!(rt; amount(amount_word(-100_000_000)), -100_000_000);
    assert_eq!(rt; file_word([0x10, 0, 0, 2]), 0x1000_0002);
    assert_eq!(rt; file_word(file_bytes(0x89ab_cdef)), 0x89ab_cdef);
}
