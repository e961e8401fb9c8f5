// The small harbour in tables, and papers for it. Words are written as numbers, as the format has them.
use build::rows::{BranchRow, BusRow};
use curved::curved::Curved;
use measure::{Microradians, Watts};
use names::branch::BranchName;
use stepped::stepped::Stepped;

// The amount 0.
pub(crate) const A: u32 = 0x6000_0000;

// The end word.
pub(crate) const END: u32 = 0x7000_0000;

pub(crate) const BUSES: [BusRow; 2] = [
    BusRow {
        name: 1,
        demand: Watts(0),
    },
    BusRow {
        name: 2,
        demand: Watts(1000),
    },
];

pub(crate) const STEPPED: [Stepped; 1] = [Stepped {
    bus: 1,
    lo: Watts(0),
    hi: Watts(2000),
    c: 0,
    n: 3,
    points: [
        Watts(0),
        Watts(600),
        Watts(2000),
        Watts(0),
        Watts(0),
        Watts(0),
        Watts(0),
        Watts(0),
    ],
    slopes: [20, 50, 0, 0, 0, 0, 0],
}];

pub(crate) const CURVED: [Curved; 1] = [Curved {
    bus: 2,
    lo: Watts(0),
    hi: Watts(1000),
    c0: 0,
    c1: 30,
    c2: 500,
}];

pub(crate) const BRANCHES: [BranchRow; 1] = [BranchRow {
    name: BranchName {
        circuit: 1,
        from: 1,
        to: 2,
    },
    susceptance: 10,
    shift: Microradians(0),
    rating: Watts(800),
    angmin: Microradians(-6_400_000),
    angmax: Microradians(6_400_000),
    service: true,
}];

// 600 W and 400 W, at an angle of -60.
pub(crate) const CHEAP: [u32; 5] = [0x1000_0002, A + 600, A + 400, 0x6fff_ffc4, END];

// 800 W and 200 W, at an angle of -80.
pub(crate) const DEAR: [u32; 5] = [0x1000_0002, A + 800, A + 200, 0x6fff_ffb0, END];

// 801 W and 199 W, at an angle of -80: 1 W too much at the first bus, 1 W too little at the second.
pub(crate) const UNEVEN: [u32; 5] = [0x1000_0002, A + 801, A + 199, 0x6fff_ffb0, END];

// 900 W and 100 W, at an angle of -90: 100 W above the branch's rating.
pub(crate) const HEAVY: [u32; 5] = [0x1000_0002, A + 900, A + 100, 0x6fff_ffa6, END];

// 30 at both buses.
pub(crate) const EVEN_PRICES: [u32; 6] = [0x1000_0003, A + 30, A + 30, A, A, END];

// 30 and 31.
pub(crate) const ODD_PRICES: [u32; 6] = [0x1000_0003, A + 30, A + 31, A, A, END];

// 20 and 31, without the branch.
pub(crate) const TRIAL: [u32; 7] = [0x1000_0006, 0x5001_0102, A + 20, A + 31, A, A, END];

// The demand at bus 2 is 1000 W, as it was.
pub(crate) const SAME_DEMAND: [u32; 4] = [0x1000_0004, 0x2000_0002, A + 1000, END];

// A demand at a bus that the case lacks.
pub(crate) const OTHER_DEMAND: [u32; 4] = [0x1000_0004, 0x2000_0003, A + 1000, END];

// The branch is out of service.
pub(crate) const OUT: [u32; 4] = [0x1000_0005, 0x5001_0102, A, END];

// Attendant 9 comes next.
pub(crate) const NEXT: [u32; 3] = [0x1000_0007, A + 9, END];
