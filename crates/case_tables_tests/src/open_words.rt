// The first word of the record that a refused case leaves open.
use crate::case_words::{LAWFUL, paper};
use case_paper::case::check_case;
use case_paper::fault::CaseFault;

// The open word of a case that is refused with so many rows provided of each sort.
fn open_word(words: &[u32], rows: [usize; 4]) -> Option<u32> {
    check_case(words, &rows).err().map(CaseFault::open_word)
}

#[test]
fn the_open_word_is_told(rt: HostRuntime) {
    let lawful = paper(LAWFUL);
    let mut crossed = lawful;
    crossed[11] = 0x6000_012c;
    assert_eq!(rt; open_word(&lawful, [3; 4]), None, "lawful");
    assert_eq!(rt; open_word(&lawful[..3], [3; 4]), Some(0), "the head is cut");
    assert_eq!(rt;
        open_word(&lawful[..10], [3; 4]),
        Some(0),
        "cut between records"
    );
    assert_eq!(rt;
        open_word(&lawful[..12], [3; 4]),
        Some(0x3000_0204),
        "a record is cut"
    );
    assert_eq!(rt;
        open_word(&crossed, [3; 4]),
        Some(0x3000_0204),
        "limits are crossed"
    );
    assert_eq!(rt;
        open_word(&lawful, [3, 3, 0, 3]),
        Some(0x4000_0007),
        "no row is provided"
    );
    assert_eq!(rt; CaseFault::Repeats(1).open_word(), 0, "a repeated name");
    assert_eq!(rt; CaseFault::Lacks(2).open_word(), 0, "a lacking name");
}
