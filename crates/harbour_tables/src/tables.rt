// The small harbour in tables: two buses, a stepped machine at the first, a curved one at the second, and one branch between them.
use build::rows::{BranchRow, BusRow};
use curved::curved::Curved;
use measure::column::Table;
use measure::measured::{AngleColumn, AnglePriceColumn, PowerColumn, PriceColumn};
use measure::{Microradians, Watts};
use names::branch::BranchName;
use network::dispatch::Dispatch;
use network::prices::Prices;
use std::fmt;
use stepped::stepped::Stepped;

pub const BUSES: [BusRow; 2] = [
    BusRow {
        name: 1,
        demand: Watts(0),
    },
    BusRow {
        name: 2,
        demand: Watts(1000),
    },
];

pub const STEPPED: [Stepped; 1] = [Stepped {
    bus: 1,
    lo: Watts(0),
    hi: Watts(2000),
    c: 0,
    n: 3,
    points: [
        Watts(0),
        Watts(600),
        Watts(2000),
        Watts(0),
        Watts(0),
        Watts(0),
        Watts(0),
        Watts(0),
    ],
    slopes: [20, 50, 0, 0, 0, 0, 0],
}];

pub const CURVED: [Curved; 1] = [Curved {
    bus: 2,
    lo: Watts(0),
    hi: Watts(1000),
    c0: 0,
    c1: 30,
    c2: 500,
}];

pub const LINE: BranchName = BranchName {
    circuit: 1,
    from: 1,
    to: 2,
};

pub const BRANCHES: [BranchRow; 1] = [BranchRow {
    name: LINE,
    susceptance: 10,
    shift: Microradians(0),
    rating: Watts(800),
    angmin: Microradians(-6_400_000),
    angmax: Microradians(6_400_000),
    service: true,
}];

// The power of each machine of the two groups, and the angle of the second bus.
#[derive(Clone, Copy)]
pub struct Offer {
    pub first: [i64; 1],
    pub second: [i64; 1],
    pub angles: [i64; 1],
}

impl Offer {
    pub(crate) fn dispatch(&self) -> Dispatch<Table<'_>> {
        Dispatch {
            first: PowerColumn::new(Table {
                values: &self.first,
            }),
            second: PowerColumn::new(Table {
                values: &self.second,
            }),
            angles: AngleColumn::new(Table {
                values: &self.angles,
            }),
        }
    }
}

impl fmt::Display for Offer {
    fn fmt<W: fmt::Write>(&self, f: &mut fmt::Formatter<W>) -> fmt::Result {
        let ([first], [second], [angle]) = (self.first, self.second, self.angles);
        write!(f, "{first} {second} {angle}")
    }
}

pub const OFFERS: [Offer; 4] = [
    Offer {
        first: [600],
        second: [400],
        angles: [-60],
    },
    Offer {
        first: [800],
        second: [200],
        angles: [-80],
    },
    Offer {
        first: [801],
        second: [199],
        angles: [-80],
    },
    Offer {
        first: [900],
        second: [100],
        angles: [-90],
    },
];

// The prices at the two buses, and the branch's congestion price and angle price.
#[derive(Clone, Copy)]
pub struct List {
    pub bus: [i64; 2],
    pub congestion: [i64; 1],
    pub angle: [i64; 1],
}

impl List {
    pub(crate) fn prices(&self) -> Prices<Table<'_>> {
        Prices {
            bus: PriceColumn {
                column: Table { values: &self.bus },
            },
            congestion: PriceColumn {
                column: Table {
                    values: &self.congestion,
                },
            },
            angle: AnglePriceColumn::new(Table {
                values: &self.angle,
            }),
        }
    }
}

impl fmt::Display for List {
    fn fmt<W: fmt::Write>(&self, f: &mut fmt::Formatter<W>) -> fmt::Result {
        let ([first, second], [congestion], [angle]) = (self.bus, self.congestion, self.angle);
        write!(f, "{first} {second} {congestion} {angle}")
    }
}

pub const LISTS: [List; 3] = [
    List {
        bus: [30, 30],
        congestion: [0],
        angle: [0],
    },
    List {
        bus: [30, 31],
        congestion: [0],
        angle: [0],
    },
    List {
        bus: [30, 30],
        congestion: [0],
        angle: [5],
    },
];

// The list that is tried without the branch.
pub const TRIAL: List = List {
    bus: [20, 31],
    congestion: [0],
    angle: [0],
};
