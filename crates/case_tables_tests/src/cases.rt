// A lawful case, names that are repeated or lacking, and tables that are too short.
use crate::case_words::{LAWFUL, Names, paper};
use build::tables::{Counts, LaidCase};
use case_paper::fault::CaseFault;
use case_paper::shown::Shown;
use case_tables::read::read_case;
use curved::curved::Curved;
use network::branch::Branch;
use network::bus::Bus;
use stepped::stepped::Stepped;

// A refusal of this number, at this place.
fn refused_at(number: u32, place: usize) -> Option<Shown> {
    Some(Shown { number, place })
}

// The refusal, or none where the case is read.
fn refusal_of(read: Result<LaidCase, CaseFault>) -> Option<Shown> {
    read.err().map(Shown::from)
}

// What reading the words into tables of three rows is refused for.
fn refused(words: &[u32]) -> Option<Shown> {
    refusal_of(read_case(
        words,
        &mut [Bus::BLANK; 3],
        &mut [Stepped::default(); 3],
        &mut [0; 3],
        &mut [Curved::default(); 3],
        &mut [0; 3],
        &mut [Branch::BLANK; 3],
    ))
}

#[test]
fn a_case_is_read(rt: HostRuntime) {
    let mut buses = [Bus::BLANK; 3];
    let mut stepped = [Stepped::default(); 2];
    let mut first = [9; 2];
    let mut curved = [Curved::default(); 2];
    let mut second = [9; 2];
    let mut branches = [Branch::BLANK; 3];
    let read = read_case(
        &paper(LAWFUL),
        &mut buses,
        &mut stepped,
        &mut first,
        &mut curved,
        &mut second,
        &mut branches,
    );
    let counts = Counts {
        buses: 2,
        first: 1,
        second: 1,
        branches: 2,
    };
    assert_eq!(rt;
        read,
        Ok(LaidCase {
            tolerance: 5,
            counts,
        })
    );
    assert_eq!(rt;
        (
            buses[0].name,
            buses[0].demand.0,
            buses[1].name,
            buses[2].name,
        ),
        (7, 50, 4, 1),
        "buses"
    );
    assert_eq!(rt; (first, second), ([1, 9], [0, 9]), "rows of buses");
    assert_eq!(rt;
        (
            stepped[0].hi.0,
            stepped[0].c,
            stepped[0].points[1].0,
            stepped[0].points[2].0,
            stepped[0].slopes[0],
        ),
        (200, 9, 100, 0, 3),
        "a machine in steps"
    );
    assert_eq!(rt;
        (
            curved[0].hi.0,
            curved[0].c0,
            curved[0].c1,
            curved[0].c2,
            curved[1].c2,
        ),
        (200, 1, 2, 3, 0),
        "a curved machine"
    );
    assert_eq!(rt;
        (
            branches[0].ends.from,
            branches[0].ends.to,
            branches[0].angmin.0,
            branches[0].service,
            branches[1].service,
        ),
        (1, 0, -5, true, false),
        "branches"
    );
}

#[test]
fn names_are_refused(rt: HostRuntime) {
    let table = [
        (LAWFUL, None),
        // a repeated bus, before a bus that is not there
        (Names { bus: 7, ..LAWFUL }, refused_at(8, 1)),
        // a repeated branch, before a bus that is not there
        (
            Names {
                other: 0x1_0407,
                curved: 5,
                ..LAWFUL
            },
            refused_at(8, 1),
        ),
        // the same branch in another circuit
        (
            Names {
                other: 0x2_0407,
                ..LAWFUL
            },
            None,
        ),
        // a bus that is not there, for each machine and each branch
        (
            Names {
                stepped: 5,
                ..LAWFUL
            },
            refused_at(9, 0),
        ),
        (
            Names {
                curved: 5,
                ..LAWFUL
            },
            refused_at(9, 1),
        ),
        (
            Names {
                branch: 0x1_0507,
                ..LAWFUL
            },
            refused_at(9, 2),
        ),
        (
            Names {
                other: 0x1_0705,
                ..LAWFUL
            },
            refused_at(9, 3),
        ),
        // equal ends
        (
            Names {
                branch: 0x1_0404,
                ..LAWFUL
            },
            refused_at(9, 2),
        ),
        // no name at all, before every other fault of names
        (
            Names {
                bus: 7,
                curved: 0,
                ..LAWFUL
            },
            refused_at(4, 17),
        ),
    ];
    for &(names, expected) in &table {
        assert_eq!(rt; refused(&paper(names)), expected);
    }
}

#[test]
fn tables_may_be_too_short(rt: HostRuntime) {
    let mut buses = [Bus::BLANK; 3];
    let read = read_case(
        &paper(LAWFUL),
        &mut buses,
        &mut [Stepped::default(); 1],
        &mut [0; 1],
        &mut [Curved::default(); 1],
        &mut [0; 1],
        &mut [Branch::BLANK; 1],
    );
    assert_eq!(rt; refusal_of(read), refused_at(6, 30), "one branch row");
    assert_eq!(rt; buses[0].name, 1, "no bus is written");
    let read = read_case(
        &paper(LAWFUL),
        &mut buses,
        &mut [Stepped::default(); 1],
        &mut [0; 0],
        &mut [Curved::default(); 1],
        &mut [0; 1],
        &mut [Branch::BLANK; 2],
    );
    assert_eq!(rt;
        refusal_of(read),
        refused_at(6, 10),
        "no row for a machine's bus"
    );
}
