// Cases: each refusal at several places, and the first word of the open record.
use crate::row::*;
use case_paper::case::check_case;
use case_paper::fault::*;
use case_paper::shown::Shown;
use word::fault::*;

// The most rows of each sort, as numbers: by `network::size` they would move with what is tested.
const ROWS: [usize; 4] = [100, 30, 30, 200];

fn checked(words: &[u32]) -> Result<(), Shown> {
    outcome(check_case(words, &ROWS))
}

#[test]
fn small_cases(rt: HostRuntime) {
    let table = [
        // one bus
        lawful(&[0x1000_0001, A, A + 1, A, A, A, 0x2000_0001, A, END]),
        // a bus, a curved machine
        lawful(&[
            0x1000_0001,
            A,
            A + 1,
            A,
            A + 1,
            A,
            0x2000_0001,
            A,
            0x4000_0001,
            A,
            A,
            A,
            A,
            A + 1,
            END,
        ]),
        expect(&[], 2, 0),
        expect(&[0x1000_0001, A, A + 1, A, A, A], 2, 6),
        expect(&[0x1000_0001, A, A + 1, A, A, A, 0x2000_0001], 2, 7),
        expect(&[0x1000_0001, A, A + 1, A, A, A, 0x2000_0001, A], 2, 8),
        expect(&[A], 3, 0),
        expect(&[0x1000_0001, A, END], 3, 2),
        // no bus yet: the end word comes too early, whatever its payload
        expect(&[0x1000_0001, A, A + 1, A, A, A, END], 3, 6),
        expect(&[0x1000_0001, A, A + 1, A, A, A, END + 9], 3, 6),
        // an amount too many, a record of an earlier sort
        expect(&[0x1000_0001, A, A + 1, A, A, A, 0x2000_0001, A, A], 3, 8),
        expect(
            &[
                0x1000_0001,
                A,
                A + 1,
                A,
                A + 1,
                A,
                0x4000_0001,
                A,
                A,
                A,
                A,
                A + 1,
                0x2000_0000,
            ],
            3,
            12,
        ),
        // a missing stepped machine
        expect(
            &[0x1000_0001, A, A + 1, A + 1, A, A, 0x2000_0001, A, END],
            3,
            8,
        ),
    ];
    check_rows(&rt, &table, checked);
}

#[test]
fn ranges_of_cases(rt: HostRuntime) {
    let table = [
        expect(&[0x1000_0002], 4, 0),
        expect(&[0x1000_0001, A + 100_001], 4, 1),
        expect(&[0x1000_0001, A, A], 4, 2),
        expect(&[0x1000_0001, A, A + 101], 4, 2),
        expect(&[0x1000_0001, A, A + 1, A + 31], 4, 3),
        expect(&[0x1000_0001, A, A + 1, A, A + 31], 4, 4),
        expect(&[0x1000_0001, A, A + 1, A, A, A + 201], 4, 5),
        expect(&[0x1000_0001, A, A + 1, A, A, A, 0x2000_0100], 4, 6),
        expect(
            &[0x1000_0001, A, A + 1, A, A, A, 0x2000_0001, A + 100_000_001],
            4,
            7,
        ),
        // one point, nine points
        expect(&[0x1000_0001, A, A + 1, A, A, A, 0x3000_0101], 4, 6),
        expect(&[0x1000_0001, A, A + 1, A, A, A, 0x3000_0901], 4, 6),
        // a bad last amount in a crossed record
        expect(
            &[
                0x1000_0001,
                A,
                A + 1,
                A,
                A,
                A,
                0x4000_0001,
                A + 2,
                A + 1,
                A,
                A,
                A + 501,
            ],
            4,
            11,
        ),
        expect(
            &[0x1000_0001, A, A + 1, A, A, A, 0x2000_0001, A, END + 1],
            4,
            8,
        ),
        expect(
            &[0x1000_0001, A, A + 1, A, A, A, 0x2000_0001, A, END, 0],
            7,
            9,
        ),
    ];
    check_rows(&rt, &table, checked);
}

#[test]
fn records_of_cases(rt: HostRuntime) {
    let table = [
        // limits crossed: curved, branch, stepped
        expect(
            &[
                0x1000_0001,
                A,
                A + 1,
                A,
                A + 1,
                A,
                0x4000_0001,
                A + 2,
                A + 1,
                A,
                A,
                A + 1,
            ],
            5,
            6,
        ),
        expect(
            &[
                0x1000_0001,
                A,
                A + 1,
                A,
                A,
                A + 1,
                0x5001_0101,
                A + 1,
                A,
                A,
                A + 2,
                A + 1,
                A,
            ],
            5,
            6,
        ),
        expect(
            &[
                0x1000_0001,
                A,
                A + 1,
                A + 1,
                A,
                A,
                0x3000_0201,
                A + 2,
                A + 1,
                A,
                A,
                A + 1,
                A,
            ],
            5,
            6,
        ),
        // points that do not rise, slopes that fall
        expect(
            &[
                0x1000_0001,
                A,
                A + 1,
                A + 1,
                A,
                A,
                0x3000_0201,
                A,
                A,
                A,
                A + 1,
                A + 1,
                A,
            ],
            5,
            6,
        ),
        expect(
            &[
                0x1000_0001,
                A,
                A + 1,
                A + 1,
                A,
                A,
                0x3000_0301,
                A,
                A,
                A,
                A,
                A + 1,
                A + 2,
                A + 3,
                A + 2,
            ],
            5,
            6,
        ),
        // crossed and past its count
        expect(
            &[
                0x1000_0001,
                A,
                A + 1,
                A,
                A,
                A,
                0x4000_0001,
                A + 2,
                A + 1,
                A,
                A,
                A + 1,
            ],
            5,
            6,
        ),
        // a second bus
        expect(
            &[
                0x1000_0001,
                A,
                A + 1,
                A,
                A,
                A,
                0x2000_0001,
                A,
                0x2000_0002,
                A,
            ],
            6,
            8,
        ),
        // cut short, it is not past its count
        expect(
            &[0x1000_0001, A, A + 1, A, A, A, 0x2000_0001, A, 0x2000_0002],
            2,
            9,
        ),
        // a surplus machine while a bus is missing
        expect(
            &[
                0x1000_0001,
                A,
                A + 1,
                A,
                A,
                A,
                0x4000_0001,
                A,
                A,
                A,
                A,
                A + 1,
            ],
            6,
            6,
        ),
    ];
    check_rows(&rt, &table, checked);
    let two = [
        0x1000_0001,
        A,
        A + 2,
        A,
        A,
        A,
        0x2000_0001,
        A,
        0x2000_0002,
        A,
        END,
    ];
    assert_eq!(rt;
        outcome(check_case(&two, &[1, 0, 0, 0])),
        Err(Shown {
            number: 6,
            place: 8
        })
    );
    assert_eq!(rt; outcome(check_case(&two, &[2, 0, 0, 0])), Ok(()));
}

// A case refused for a word, with the first word of the open record.
fn word_refused(refusal: WordRefusal, place: usize, first: Option<u32>) -> Result<(), CaseFault> {
    Err(CaseFault::Record(RecordFault::Word(WordFault {
        refusal,
        place,
        first,
    })))
}

#[test]
fn open_words(rt: HostRuntime) {
    let words = [
        0x1000_0001,
        A,
        A + 1,
        A,
        A,
        A,
        0x4000_0001,
        A,
        A + 100_000_001,
    ];
    assert_eq!(rt;
        check_case(&words, &ROWS).map(|_| ()),
        word_refused(WordRefusal::Range, 8, Some(0x4000_0001))
    );
    assert_eq!(rt;
        check_case(&words[0..8], &ROWS).map(|_| ()),
        word_refused(WordRefusal::Stops, 8, Some(0x4000_0001))
    );
    assert_eq!(rt;
        check_case(&words[0..6], &ROWS).map(|_| ()),
        word_refused(WordRefusal::Stops, 6, None)
    );
}
