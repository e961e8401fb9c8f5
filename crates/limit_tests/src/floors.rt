// Price lists one either side of each limit, and what the floor is made of.
use crate::setting::*;
use build::rows::BranchRow;
use measure::column::Table;
use measure::measured::{AnglePriceColumn, PriceColumn};
use measure::{Microradians, Watts};
use names::branch::BranchName;
use network::prices::Prices;
use pricing::floor::floor;
use std::process::Abort;
use std::test::Fail;

// The greatest and the least price, as numbers: by `Price::LIMIT` the lists would move with the limit that they test.
const HIGH: i64 = 1_000_000;

const LOW: i64 = -1_000_000;

// The prices of the buses, the congestion prices and the angle prices of the branches, and the floor.
#[derive(Clone, Copy)]
struct List<const BUSES: usize, const BRANCHES: usize>(
    [i64; BUSES],
    [i64; BRANCHES],
    [i64; BRANCHES],
    Answer,
);

// Each list has the floor that it states. Not one function with `check_offers`: they share the loop alone, and a closure for the rest would
// make the prices or the dispatch, its answer, the answer that is due and the message.
fn check_lists<const BUSES: usize, const BRANCHES: usize>(
    rt: &impl Abort,
    setting: Setting,
    lists: &[List<BUSES, BRANCHES>],
) -> Result<(), Fail> {
    let tables = setting.tables()?;
    let case = setting.case(&tables);
    for &List(bus, congestion, angle, expected) in lists {
        let prices = Prices {
            bus: PriceColumn {
                column: Table { values: &bus },
            },
            congestion: PriceColumn {
                column: Table {
                    values: &congestion,
                },
            },
            angle: AnglePriceColumn::new(Table { values: &angle }),
        };
        assert_eq!(rt;
            shown(floor(&case, &prices)),
            expected,
            "prices {bus:?} {congestion:?} {angle:?}"
        );
    }
    Ok(())
}

// One either side of the range of a bus price.
#[test]
fn bus_prices(rt: HostRuntime) -> Result<(), Fail> {
    check_lists(
        &rt,
        PLAIN,
        &[
            List([HIGH, HIGH], [0], [0], Ok(-9_488_687_998_000)),
            List([LOW, LOW], [0], [0], Ok(-7_494_857_980_000)),
            List([HIGH, LOW], [0], [0], Ok(-14_894_927_998_000)),
            List([LOW, HIGH], [0], [0], Ok(-14_888_617_980_000)),
            List([1_000_001, HIGH], [0], [0], Err(Refused(4, 0))),
            List([-1_000_001, HIGH], [0], [0], Err(Refused(4, 0))),
            List([HIGH, 1_000_001], [0], [0], Err(Refused(4, 1))),
            List([HIGH, -1_000_001], [0], [0], Err(Refused(4, 1))),
            List([1_000_001, -1_000_001], [0], [0], Err(Refused(4, 0))),
            List([i64::MAX, 0], [0], [0], Err(Refused(4, 0))),
            List([0, i64::MIN], [0], [0], Err(Refused(4, 1))),
        ],
    )
}

// One either side of the ranges of a congestion price and of an angle price.
#[test]
fn branch_prices(rt: HostRuntime) -> Result<(), Fail> {
    check_lists(
        &rt,
        PLAIN.with_line(BranchRow {
            rating: Watts(800),
            ..LINE
        }),
        &[
            List([30, 30], [HIGH], [0], Ok(-3_200_797_962_000)),
            List([30, 30], [LOW], [0], Ok(-3_200_797_962_000)),
            List([30, 30], [1_000_001], [0], Err(Refused(4, 0))),
            List([30, 30], [-1_000_001], [0], Err(Refused(4, 0))),
            List([30, 30], [i64::MIN], [0], Err(Refused(4, 0))),
            List([30, 30], [0], [100_000_000], Ok(-959_999_997_962_000)),
            List([30, 30], [0], [-100_000_000], Ok(-959_999_997_962_000)),
            List([30, 30], [0], [100_000_001], Err(Refused(4, 0))),
            List([30, 30], [0], [-100_000_001], Err(Refused(4, 0))),
            List([30, 30], [0], [i64::MAX], Err(Refused(4, 0))),
            List([30, 1_000_001], [1_000_001], [0], Err(Refused(4, 1))),
            List([30, 1_000_001], [0], [100_000_001], Err(Refused(4, 1))),
        ],
    )
}

// A branch in service without a rating has no congestion price.
#[test]
fn unrated(rt: HostRuntime) -> Result<(), Fail> {
    check_lists(
        &rt,
        PLAIN,
        &[
            List([30, 30], [0], [0], Ok(2_038_000)),
            List([30, 30], [1], [0], Err(Refused(15, 0))),
            List([30, 30], [-1], [0], Err(Refused(15, 0))),
            List([30, 30], [HIGH], [0], Err(Refused(15, 0))),
            List([30, 30], [1_000_001], [0], Err(Refused(4, 0))),
            List([30, 30], [1], [100_000_001], Err(Refused(4, 0))),
        ],
    )?;
    check_lists(
        &rt,
        PLAIN.with_line(BranchRow {
            rating: Watts(1),
            ..LINE
        }),
        &[
            List([30, 30], [0], [0], Ok(2_038_000)),
            List([30, 30], [1], [0], Ok(-1_162_001)),
            List([30, 30], [-1], [0], Ok(-1_162_001)),
        ],
    )
}

// A branch out of service takes no part, but its prices keep their ranges.
#[test]
fn idle_branches(rt: HostRuntime) -> Result<(), Fail> {
    check_lists(
        &rt,
        PLAIN.with_line(BranchRow {
            susceptance: 10,
            shift: Microradians(30),
            angmin: Microradians(5),
            angmax: Microradians(9),
            service: false,
            ..LINE
        }),
        &[
            List([20, 31], [0], [0], Ok(2_046_500)),
            List([20, 31], [1], [0], Ok(2_046_500)),
            List([20, 31], [LOW], [-100_000_000], Ok(2_046_500)),
            List([20, 31], [HIGH], [100_000_000], Ok(2_046_500)),
            List([20, 31], [1_000_001], [0], Err(Refused(4, 0))),
            List([20, 31], [0], [-100_000_001], Err(Refused(4, 0))),
        ],
    )?;
    check_lists(
        &rt,
        PLAIN.with_line(BranchRow {
            susceptance: 1_000_000,
            shift: Microradians(30),
            rating: Watts(800),
            service: false,
            ..LINE
        }),
        &[
            List([HIGH, LOW], [HIGH], [0], Ok(-8_494_927_998_000)),
            List([LOW, HIGH], [LOW], [100_000_000], Ok(-8_488_617_980_000)),
        ],
    )?;
    check_lists(
        &rt,
        PLAIN.with_two_lines(
            LINE,
            BranchRow {
                susceptance: 10,
                shift: Microradians(7),
                service: false,
                ..LINE
            },
        ),
        &[
            List([30, 20, 0], [0, HIGH], [-10, 100_000_000], Ok(-62_022_000)),
            List([30, 20, 0], [0, 1_000_001], [-10, 0], Err(Refused(4, 1))),
            List([30, 20, 0], [1, HIGH], [-10, 0], Err(Refused(15, 0))),
        ],
    )
}

// Rows after those of the case are not read.
#[test]
fn rows_not_read(rt: HostRuntime) -> Result<(), Fail> {
    check_lists(
        &rt,
        PLAIN,
        &[
            List(
                [30, 30, 1_000_001],
                [0, 1_000_001],
                [0, 100_000_001],
                Ok(2_038_000),
            ),
            List(
                [30, 30, i64::MIN],
                [0, i64::MAX],
                [0, i64::MIN],
                Ok(2_038_000),
            ),
        ],
    )
}

// Two weights at their limits that leave no residue, and one step beyond.
#[test]
fn weights_in_balance(rt: HostRuntime) -> Result<(), Fail> {
    check_lists(
        &rt,
        PLAIN.with_two_lines(
            BranchRow {
                susceptance: 10_000,
                rating: Watts(800),
                ..LINE
            },
            BranchRow {
                susceptance: 10_000,
                rating: Watts(800),
                ..LINE
            },
        ),
        &[
            List([30, 30, 0], [HIGH, LOW], [0, 0], Ok(-1_597_962_000)),
            List([30, 30, 0], [LOW, HIGH], [0, 0], Ok(-1_597_962_000)),
            List([31, 30, 0], [HIGH, LOW], [0, 0], Err(Refused(16, 0))),
            List([30, 31, 0], [HIGH, LOW], [0, 0], Err(Refused(16, 1))),
            List([31, 30, 0], [LOW, HIGH], [0, 0], Err(Refused(16, 1))),
            List([30, 31, 0], [LOW, HIGH], [0, 0], Err(Refused(16, 0))),
            List([31, 30, 0], [999_999, LOW], [0, 0], Ok(-33_597_962_000)),
        ],
    )
}

// One either side of the range of a weight, before the residue of the first bus is tested.
#[test]
fn weights(rt: HostRuntime) -> Result<(), Fail> {
    check_lists(
        &rt,
        PLAIN.with_two_lines(
            LINE,
            BranchRow {
                susceptance: 3_541,
                rating: Watts(800),
                ..LINE
            },
        ),
        &[
            List([HIGH, LOW, 0], [0, 824_061], [0, 0], Err(Refused(16, 1))),
            List([HIGH, LOW, 0], [0, 824_060], [0, 0], Err(Refused(16, 0))),
            List([LOW, HIGH, 0], [0, -824_061], [0, 0], Err(Refused(16, 1))),
            List([LOW, HIGH, 0], [0, -824_060], [0, 0], Err(Refused(16, 0))),
        ],
    )?;
    check_lists(
        &rt,
        PLAIN.with_two_lines(
            LINE,
            BranchRow {
                susceptance: 5_000,
                rating: Watts(800),
                ..LINE
            },
        ),
        &[
            List([HIGH, LOW, 0], [0, 0], [0, 0], Err(Refused(16, 0))),
            List([HIGH, LOW, 0], [0, 1], [0, 0], Err(Refused(16, 1))),
            List([LOW, HIGH, 0], [0, 0], [0, 0], Err(Refused(16, 0))),
            List([LOW, HIGH, 0], [0, -1], [0, 0], Err(Refused(16, 1))),
        ],
    )
}

// One either side of the range of a residue.
#[test]
fn residues(rt: HostRuntime) -> Result<(), Fail> {
    check_lists(
        &rt,
        PLAIN.with_line(BranchRow {
            susceptance: 1_000,
            ..LINE
        }),
        &[
            List([HIGH, 0], [0], [0], Ok(-3_204_999_948_448_000)),
            List([HIGH, 0], [0], [1], Err(Refused(16, 0))),
            List([HIGH, 0], [0], [-1], Ok(-3_204_999_951_648_000)),
            List([0, HIGH], [0], [0], Ok(-3_204_488_817_980_000)),
            List([0, HIGH], [0], [-1], Err(Refused(16, 0))),
            List([0, HIGH], [0], [1], Ok(-3_204_488_821_180_000)),
            List([HIGH, -1], [0], [-1_000], Ok(-3_205_006_348_479_500)),
            List([HIGH, -1], [0], [-999], Err(Refused(16, 0))),
            List([HIGH, LOW], [0], [0], Err(Refused(16, 0))),
        ],
    )?;
    check_lists(
        &rt,
        PLAIN.with_line(BranchRow {
            susceptance: 1_000,
            service: false,
            ..LINE
        }),
        &[List([HIGH, LOW], [0], [1], Ok(-8_494_927_998_000))],
    )
}

// Residues beyond their range at one bus only: the reference, the second and the third.
#[test]
fn residues_of_three_buses(rt: HostRuntime) -> Result<(), Fail> {
    check_lists(
        &rt,
        Setting {
            demands: [-200, 1_000, 40],
            nb: 3,
            ..PLAIN
        }
        .with_two_lines(
            BranchRow {
                susceptance: 500,
                ..LINE
            },
            BranchRow {
                name: BranchName { to: 3, ..LINE.name },
                susceptance: 500,
                ..LINE
            },
        ),
        &[
            List([HIGH, 0, 0], [0, 0], [0, 0], Ok(-3_204_999_948_448_000)),
            List([HIGH, 0, 0], [0, 0], [1, 0], Err(Refused(16, 0))),
            List([HIGH, 0, 0], [0, 0], [0, 1], Err(Refused(16, 0))),
            List([LOW, 0, 0], [0, 0], [0, -1], Err(Refused(16, 0))),
            List([0, LOW, HIGH], [0, 0], [0, 0], Ok(-3_203_495_017_980_000)),
            List(
                [HIGH, LOW, HIGH],
                [0, 0],
                [0, 0],
                Ok(-3_208_494_887_998_000),
            ),
            List([HIGH, LOW, HIGH], [0, 0], [1, -1], Err(Refused(16, 1))),
            List([HIGH, HIGH, LOW], [0, 0], [-1, 1], Err(Refused(16, 2))),
            List([LOW, HIGH, LOW], [0, 0], [-1, 1], Err(Refused(16, 1))),
            List([HIGH, LOW, 0], [0, 0], [1, 0], Err(Refused(16, 0))),
            List([0, 0, 1_000_001], [0, 0], [0, 0], Err(Refused(4, 2))),
        ],
    )
}

// An angle price is charged at the upper limit of the difference, one below 0 at the lower.
#[test]
fn angle_charges(rt: HostRuntime) -> Result<(), Fail> {
    check_lists(
        &rt,
        PLAIN.with_line(BranchRow {
            angmin: Microradians(-70),
            angmax: Microradians(50),
            ..LINE
        }),
        &[
            List([30, 30], [0], [0], Ok(2_038_000)),
            List([30, 30], [0], [5], Ok(-13_962_250)),
            List([30, 30], [0], [-5], Ok(-13_962_350)),
            List([30, 35], [0], [5], Ok(2_030_250)),
            List([35, 30], [0], [-5], Ok(2_033_650)),
        ],
    )?;
    check_lists(
        &rt,
        PLAIN.with_line(BranchRow {
            angmin: Microradians(10),
            angmax: Microradians(20),
            ..LINE
        }),
        &[
            List([30, 30], [0], [5], Ok(-13_962_100)),
            List([30, 30], [0], [-5], Ok(-13_961_950)),
        ],
    )?;
    check_lists(
        &rt,
        PLAIN.with_line(BranchRow {
            angmin: Microradians(-20),
            angmax: Microradians(-10),
            ..LINE
        }),
        &[
            List([30, 30], [0], [5], Ok(-13_961_950)),
            List([30, 30], [0], [-5], Ok(-13_962_100)),
        ],
    )
}

// The weight is charged at the shift, and the congestion price at the rating, either way.
#[test]
fn shift_and_congestion_charges(rt: HostRuntime) -> Result<(), Fail> {
    check_lists(
        &rt,
        PLAIN.with_line(BranchRow {
            susceptance: 10,
            shift: Microradians(30),
            rating: Watts(800),
            ..LINE
        }),
        &[
            List([30, 30], [0], [0], Ok(2_038_000)),
            List([30, 31], [1], [0], Ok(2_037_700)),
            List([31, 30], [-1], [0], Ok(2_036_400)),
            List([30, 33], [0], [30], Ok(-189_962_600)),
            List([33, 30], [0], [-30], Ok(-189_965_300)),
            List([30, 30], [3], [-30], Ok(-189_965_300)),
            List([30, 30], [-3], [30], Ok(-189_963_500)),
        ],
    )?;
    check_lists(
        &rt,
        PLAIN.with_line(BranchRow {
            susceptance: 10,
            shift: Microradians(-1_600_000),
            rating: Watts(100_000_000),
            ..LINE
        }),
        &[
            List([30, 31], [1], [0], Ok(-97_961_500)),
            List([31, 30], [-1], [0], Ok(-97_962_800)),
            List([30, 33], [0], [30], Ok(-237_963_500)),
            List([33, 30], [0], [-30], Ok(-141_964_400)),
        ],
    )
}

// Each bus price is charged at the tolerance, whatever its sign.
#[test]
fn tolerance_charges(rt: HostRuntime) -> Result<(), Fail> {
    check_lists(&rt, PLAIN, &[List([30, -31], [0], [-61], Ok(-390_283_500))])?;
    check_lists(
        &rt,
        Setting {
            tolerance: 1,
            ..PLAIN
        },
        &[
            List([30, -31], [0], [-61], Ok(-390_283_561)),
            List([-30, 31], [0], [61], Ok(-588_343_561)),
            List([0, 0], [0], [0], Ok(-78_430_000)),
        ],
    )?;
    check_lists(
        &rt,
        Setting {
            tolerance: 100_000,
            ..PLAIN
        },
        &[
            List([30, -31], [0], [-61], Ok(-396_383_500)),
            List([HIGH, HIGH], [0], [0], Ok(-9_688_687_998_000)),
            List([LOW, LOW], [0], [0], Ok(-7_694_857_980_000)),
        ],
    )
}

// Prices, weights, residue, shifts, ratings, demands, tolerance and costs at their limits at once.
#[test]
fn floors_at_every_limit(rt: HostRuntime) -> Result<(), Fail> {
    check_lists(
        &rt,
        Setting {
            demands: [-100_000_000, 100_000_000, 0],
            ..WIDEST
        }
        .with_two_lines(
            BranchRow {
                susceptance: 10_000,
                shift: Microradians(1_600_000),
                rating: Watts(100_000_000),
                ..LINE
            },
            BranchRow {
                susceptance: 9_200,
                shift: Microradians(-1_600_000),
                rating: Watts(100_000_000),
                ..LINE
            },
        ),
        &[
            List(
                [HIGH, HIGH, 0],
                [HIGH, LOW],
                [100_000_000, 100_000_000],
                Ok(-35_295_200_000_000_000),
            ),
            List(
                [LOW, LOW, 0],
                [LOW, HIGH],
                [-100_000_000, -100_000_000],
                Ok(26_139_800_000_000_000),
            ),
            List(
                [HIGH, HIGH, 0],
                [HIGH, LOW],
                [100_000_000, 100_000_001],
                Err(Refused(4, 1)),
            ),
        ],
    )?;
    check_lists(
        &rt,
        Setting {
            demands: [-100_000_000, 100_000_000, 0],
            ..WIDEST
        }
        .with_two_lines(
            BranchRow {
                susceptance: 10_000,
                shift: Microradians(-1_600_000),
                rating: Watts(100_000_000),
                ..LINE
            },
            BranchRow {
                susceptance: 9_200,
                shift: Microradians(1_600_000),
                rating: Watts(100_000_000),
                ..LINE
            },
        ),
        &[
            List(
                [HIGH, HIGH, 0],
                [HIGH, LOW],
                [100_000_000, 100_000_000],
                Ok(26_144_800_000_000_000),
            ),
            List(
                [LOW, LOW, 0],
                [LOW, HIGH],
                [-100_000_000, -100_000_000],
                Ok(-35_300_200_000_000_000),
            ),
            List(
                [999_999, HIGH, 0],
                [HIGH, LOW],
                [100_000_000, 100_000_000],
                Ok(26_144_860_160_100_000),
            ),
        ],
    )
}
