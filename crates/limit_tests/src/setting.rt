// A case of two or three buses, with a stepped machine at the first and a curved one at the second, and of one or two branches that leave the first.
use build::rows::{BranchRow, BusRow};
use curved::curved::Curved;
use measure::{Grains, Microradians, Watts};
use names::branch::BranchName;
use network::branch::{Branch, Ends};
use network::bus::Bus;
use network::case::{Case, Machines};
use network::refusal::Refusal;
use std::test::Fail;
use stepped::stepped::Stepped;

// A refusal, by its number and the row where it stands, as it is shown: a table of the enum's own values would leave these numbers untested.
// Not `case_paper::shown::Shown`: this crate knows no papers.
#[derive(Clone, Copy, PartialEq, Eq, Debug, Drop)]
pub struct Refused(pub u8, pub usize);

impl From<Refusal> for Refused {
    fn from(refusal: Refusal) -> Self {
        Refused(refusal.number(), refusal.place())
    }
}

// What judging a dispatch or the floor of a price list answers: grains, or a refusal.
pub type Answer = Result<i64, Refused>;

// The answer by its numbers.
pub(crate) fn shown(answer: Result<Grains, Refusal>) -> Answer {
    Ok(answer?.0)
}

// The numbers of a case. It has the first nb of the buses and the first nl of the lines: a case may count fewer rows than its tables have, and
// the rows after them stand there unread.
#[derive(Clone, Copy)]
pub struct Setting {
    pub tolerance: u32,
    pub demands: [i64; 3],
    pub nb: u8,
    pub stepped: Stepped,
    pub curved: Curved,
    pub lines: [BranchRow; 2],
    pub nl: u8,
}

// From the first bus to the second, one watt for each microradian, no rating, and the widest limits.
pub const LINE: BranchRow = BranchRow {
    name: BranchName {
        circuit: 1,
        from: 1,
        to: 2,
    },
    susceptance: 1,
    shift: Microradians(0),
    rating: Watts(0),
    angmin: Microradians(-6_400_000),
    angmax: Microradians(6_400_000),
    service: true,
};

// Two buses and one line.
pub const PLAIN: Setting = Setting {
    tolerance: 0,
    demands: [-200, 1_000, 0],
    nb: 2,
    stepped: Stepped {
        bus: 1,
        lo: Watts(-4_000_000),
        hi: Watts(5_000_000),
        c: 7,
        n: 3,
        points: [
            Watts(-1_000),
            Watts(600),
            Watts(2_000),
            Watts(0),
            Watts(0),
            Watts(0),
            Watts(0),
            Watts(0),
        ],
        slopes: [20, 50, 0, 0, 0, 0, 0],
    },
    curved: Curved {
        bus: 2,
        lo: Watts(-3_500_000),
        hi: Watts(4_500_000),
        c0: -5,
        c1: 30,
        c2: 500,
    },
    lines: [LINE, LINE],
    nl: 1,
};

// The widest limits and the greatest numbers of both machines.
pub const WIDEST: Setting = Setting {
    tolerance: 100_000,
    stepped: Stepped {
        bus: 1,
        lo: Watts(-100_000_000),
        hi: Watts(100_000_000),
        c: 100_000_000,
        n: 2,
        points: [
            Watts(-100_000_000),
            Watts(100_000_000),
            Watts(0),
            Watts(0),
            Watts(0),
            Watts(0),
            Watts(0),
            Watts(0),
        ],
        slopes: [1_000_000, 0, 0, 0, 0, 0, 0],
    },
    curved: Curved {
        bus: 2,
        lo: Watts(-100_000_000),
        hi: Watts(100_000_000),
        c0: 100_000_000,
        c1: -1_000_000,
        c2: 500,
    },
    ..PLAIN
};

// The branch of the row as that circuit, where each number is in its range. The buses of the tables are named by their rows, from 1 on.
// Not by `build::build::lay`: it counts every row that it is offered, and here a line in service stands unread after those that are counted.
fn branch(circuit: u32, row: BranchRow) -> Result<Branch, Fail> {
    let name = BranchName {
        circuit,
        ..row.name
    };
    let to = u8::try_from(name.to.saturating_sub(1)).unwrap_or(u8::MAX);
    BranchRow { name, ..row }
        .branch(Ends { from: 0, to })
        .filter(|branch| branch.ends.to <= 2)
        .ok_or_else(|| Fail::new("a number of a branch is outside its range"))
}

// The bus of these numbers, where each is in its range.
fn bus(name: u32, demand: i64) -> Result<Bus, Fail> {
    let row = BusRow {
        name,
        demand: Watts(demand),
    };
    row.bus()
        .ok_or_else(|| Fail::new("a number of a bus is outside its range"))
}

// The tables of a case.
#[derive(Clone, Copy)]
pub struct Tables {
    buses: [Bus; 3],
    stepped: [Stepped; 1],
    first: [u8; 1],
    curved: [Curved; 1],
    second: [u8; 1],
    branches: [Branch; 2],
}

impl Setting {
    // The case with that line alone.
    pub(crate) fn with_line(self, line: BranchRow) -> Setting {
        Setting {
            lines: [line, LINE],
            nl: 1,
            ..self
        }
    }

    // The case with these two lines.
    pub(crate) fn with_two_lines(self, first: BranchRow, second: BranchRow) -> Setting {
        Setting {
            lines: [first, second],
            nl: 2,
            ..self
        }
    }

    pub(crate) fn tables(&self) -> Result<Tables, Fail> {
        let [one, two, three] = self.demands;
        let [line, other] = self.lines;
        Ok(Tables {
            buses: [bus(1, one)?, bus(2, two)?, bus(3, three)?],
            stepped: [self.stepped],
            first: [0],
            curved: [self.curved],
            second: [1],
            branches: [branch(1, line)?, branch(2, other)?],
        })
    }

    // The case in its tables.
    pub(crate) fn case<'a>(&self, tables: &'a Tables) -> Case<'a, Stepped, Curved> {
        Case {
            tolerance: self.tolerance,
            buses: &tables.buses,
            nb: self.nb,
            first: Machines {
                rows: &tables.stepped,
                places: &tables.first,
                count: 1,
            },
            second: Machines {
                rows: &tables.curved,
                places: &tables.second,
                count: 1,
            },
            branches: &tables.branches,
            nl: self.nl,
        }
    }
}
