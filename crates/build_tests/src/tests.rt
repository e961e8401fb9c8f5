// A case of two buses, a machine at each and a branch between them, and what one wrong number in it is refused for.
use build::build::lay;
use build::rows::{BranchRow, BusRow};
use build::tables::{Counts, LaidCase, Rows};
use curved::curved::Curved;
use measure::{Microradians, Watts};
use names::branch::BranchName;
use network::branch::Branch;
use network::bus::Bus;
use network::refusal::Refusal;

fn bus(name: u32) -> BusRow {
    BusRow {
        name,
        demand: Watts(50),
    }
}

fn branch(circuit: u32, from: u32, to: u32) -> BranchRow {
    BranchRow {
        name: BranchName { circuit, from, to },
        susceptance: 10,
        shift: Microradians(0),
        rating: Watts(100),
        angmin: Microradians(-5),
        angmax: Microradians(5),
        service: true,
    }
}

fn machine(bus: u32) -> Curved {
    Curved {
        bus,
        lo: Watts(0),
        hi: Watts(200),
        c0: 1,
        c1: 2,
        c2: 3,
    }
}

// Lays the rows in tables of three rows each.
fn laid<'x>(
    buses: &'x [BusRow],
    first: u32,
    second: u32,
    branches: &'x [BranchRow],
) -> Result<LaidCase, Refusal> {
    let rows = Rows {
        tolerance: Watts(5),
        buses,
        first: &[machine(first)],
        second: &[machine(second)],
        branches,
    };
    lay(
        &rows,
        &mut [Bus::BLANK; 3],
        &mut [0; 3],
        &mut [0; 3],
        &mut [Branch::BLANK; 3],
    )
}

#[test]
fn a_case_is_laid(rt: HostRuntime) {
    let counts = Counts {
        buses: 2,
        first: 1,
        second: 1,
        branches: 2,
    };
    assert_eq!(rt;
        laid(&[bus(7), bus(4)], 4, 7, &[branch(1, 4, 7), branch(1, 7, 4)]),
        Ok(LaidCase {
            tolerance: 5,
            counts,
        })
    );
}

#[test]
fn numbers_are_tested_first(rt: HostRuntime) {
    let crossed = BranchRow {
        angmin: Microradians(6),
        ..branch(1, 9, 9)
    };
    assert_eq!(rt;
        laid(&[bus(7), bus(0)], 9, 9, &[crossed]),
        Err(Refusal::OutOfRange(1))
    );
    assert_eq!(rt;
        laid(&[bus(7), bus(7)], 9, 9, &[crossed]),
        Err(Refusal::Crossed(0))
    );
    assert_eq!(rt; laid(&[], 9, 9, &[]), Err(Refusal::Size), "no bus");
    assert_eq!(rt;
        laid(&[bus(1), bus(2), bus(3), bus(4)], 1, 1, &[]),
        Err(Refusal::Size),
        "no room"
    );
}

#[test]
fn names_are_tested_last(rt: HostRuntime) {
    let buses = [bus(7), bus(4)];
    assert_eq!(rt;
        laid(&[bus(7), bus(7)], 9, 9, &[]),
        Err(Refusal::Repeated(1))
    );
    assert_eq!(rt;
        laid(&buses, 9, 9, &[branch(1, 4, 7), branch(1, 4, 7)]),
        Err(Refusal::Repeated(1))
    );
    assert_eq!(rt; laid(&buses, 9, 9, &[]), Err(Refusal::UnknownBus(0)));
    assert_eq!(rt; laid(&buses, 4, 9, &[]), Err(Refusal::UnknownBus(1)));
    assert_eq!(rt;
        laid(&buses, 4, 7, &[branch(1, 4, 7), branch(1, 4, 9)]),
        Err(Refusal::UnknownBus(3))
    );
    assert_eq!(rt;
        laid(&buses, 4, 7, &[branch(1, 4, 4)]),
        Err(Refusal::UnknownBus(2))
    );
}
