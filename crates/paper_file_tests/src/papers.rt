// Where papers end, and which calls they go to.
use paper_file::call::*;
use paper_file::papers::paper_len;

// The amount word of 0, and the end word, as numbers: by the functions of `word` they would be made by what is tested.
const A: u32 = 0x6000_0000;

const END: u32 = 0x7000_0000;

#[test]
fn first_papers(rt: HostRuntime) {
    assert_eq!(rt; paper_len(&[]), 0);
    assert_eq!(rt; paper_len(&[END]), 1);
    assert_eq!(rt; paper_len(&[END, END]), 1);
    assert_eq!(rt; paper_len(&[A, A]), 2);
    assert_eq!(rt; paper_len(&[0x1000_0002, A, END, A]), 3);
    // an end word with a payload ends a paper too, and a word of kind 15 does not
    assert_eq!(rt; paper_len(&[A, END + 9, END]), 2);
    assert_eq!(rt; paper_len(&[0xf000_0000, END]), 2);
}

#[test]
fn three_papers(rt: HostRuntime) {
    let words = [0x1000_0002, A, END, END, 0x1000_0003, A];
    let (first, rest) = words.split_at(paper_len(&words));
    assert_eq!(rt; first.len(), 3);
    let (second, last) = rest.split_at(paper_len(rest));
    assert_eq!(rt; second.len(), 1);
    assert_eq!(rt; last, [0x1000_0003, A].as_slice());
    assert_eq!(rt; paper_len(last), 2);
}

#[test]
fn calls(rt: HostRuntime) {
    let table = [
        (0x1000_0002, Call::Dispatch),
        (0x1000_0003, Call::Prices),
        (0x1000_0004, Call::Demand),
        (0x1000_0005, Call::Mark),
        (0x1000_0006, Call::Trial),
        (0x1000_0007, Call::HandOver),
        // a case, other heads, and words that are no heads
        (0x1000_0001, Call::Dispatch),
        (0x1000_0000, Call::Dispatch),
        (0x1000_0008, Call::Dispatch),
        (0x1100_0003, Call::Dispatch),
        (0x6000_0003, Call::Dispatch),
        (0x0000_0004, Call::Dispatch),
        (0x9000_0007, Call::Dispatch),
    ];
    for (first, call) in table.iter() {
        assert_eq!(rt; call_of(&[*first, 0x1000_0005, END]), *call);
    }
    assert_eq!(rt; call_of(&[]), Call::Dispatch);
}
