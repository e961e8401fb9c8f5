// Dispatches one watt or one microradian either side of each limit.
use crate::setting::*;
use build::rows::BranchRow;
use judging::judge::judge;
use measure::column::Table;
use measure::measured::{AngleColumn, PowerColumn};
use measure::{Microradians, Watts};
use network::dispatch::Dispatch;
use std::process::Abort;
use std::test::Fail;

// The power of each machine, the angle of the second bus, and what judging them answers.
#[derive(Clone, Copy)]
struct Offer(i64, i64, i64, Answer);

fn check_offers(rt: &impl Abort, setting: Setting, offers: &[Offer]) -> Result<(), Fail> {
    let tables = setting.tables()?;
    let case = setting.case(&tables);
    for &Offer(first, second, angle, expected) in offers {
        let (powers, others, angles) = ([first], [second], [angle]);
        let dispatch = Dispatch {
            first: PowerColumn::new(Table { values: &powers }),
            second: PowerColumn::new(Table { values: &others }),
            angles: AngleColumn::new(Table { values: &angles }),
        };
        assert_eq!(rt;
            shown(judge(&case, &dispatch)),
            expected,
            "dispatch {first} {second} {angle}"
        );
    }
    Ok(())
}

// A watt too much and a watt too little at each bus, at tolerance 0.
#[test]
fn strict_balance(rt: HostRuntime) -> Result<(), Fail> {
    check_offers(
        &rt,
        PLAIN,
        &[
            Offer(600, 200, -800, Ok(2_038_020)),
            Offer(601, 200, -800, Err(Refused(12, 0))),
            Offer(599, 200, -800, Err(Refused(12, 0))),
            Offer(600, 201, -800, Err(Refused(12, 1))),
            Offer(600, 199, -800, Err(Refused(12, 1))),
            Offer(601, 199, -800, Err(Refused(12, 0))),
            Offer(-1_000, 1_800, 800, Ok(2_055_620)),
            Offer(-1_000, 1_801, 800, Err(Refused(12, 1))),
            Offer(-999, 1_800, 800, Err(Refused(12, 0))),
            Offer(-200, 1_000, 0, Ok(2_046_500)),
        ],
    )
}

// One watt either side of the tolerance at each bus.
#[test]
fn tolerances(rt: HostRuntime) -> Result<(), Fail> {
    check_offers(
        &rt,
        Setting {
            tolerance: 1,
            ..PLAIN
        },
        &[
            Offer(601, 200, -800, Ok(2_038_070)),
            Offer(602, 200, -800, Err(Refused(12, 0))),
            Offer(599, 200, -800, Ok(2_038_000)),
            Offer(598, 200, -800, Err(Refused(12, 0))),
            Offer(600, 201, -800, Ok(2_038_051)),
            Offer(600, 202, -800, Err(Refused(12, 1))),
            Offer(600, 199, -800, Ok(2_037_990)),
            Offer(600, 198, -800, Err(Refused(12, 1))),
            Offer(601, 199, -800, Ok(2_038_040)),
            Offer(602, 202, -800, Err(Refused(12, 0))),
        ],
    )?;
    check_offers(
        &rt,
        Setting {
            tolerance: 100_000,
            ..PLAIN
        },
        &[
            Offer(100_600, 200, -800, Ok(7_038_020)),
            Offer(100_601, 200, -800, Err(Refused(12, 0))),
            Offer(-99_400, 200, -800, Ok(38_020)),
            Offer(-99_401, 200, -800, Err(Refused(12, 0))),
            Offer(600, 100_200, -800, Ok(10_058_020)),
            Offer(600, 100_201, -800, Err(Refused(12, 1))),
            Offer(600, -99_800, -800, Ok(4_018_020)),
            Offer(600, -99_801, -800, Err(Refused(12, 1))),
            Offer(100_600, -99_800, -800, Ok(9_018_020)),
            Offer(100_600, 100_201, -800, Err(Refused(12, 1))),
        ],
    )
}

// One watt either side of a rating, both ways; a rating of 0 is no limit.
#[test]
fn ratings(rt: HostRuntime) -> Result<(), Fail> {
    check_offers(
        &rt,
        PLAIN.with_line(BranchRow {
            rating: Watts(800),
            ..LINE
        }),
        &[
            Offer(599, 201, -799, Ok(2_038_031)),
            Offer(600, 200, -800, Ok(2_038_020)),
            Offer(601, 199, -801, Err(Refused(13, 0))),
            Offer(-999, 1_799, 799, Ok(2_055_609)),
            Offer(-1_000, 1_800, 800, Ok(2_055_620)),
            Offer(-1_001, 1_801, 801, Err(Refused(13, 0))),
        ],
    )?;
    check_offers(
        &rt,
        PLAIN,
        &[
            Offer(601, 199, -801, Ok(2_038_040)),
            Offer(-1_001, 1_801, 801, Ok(2_055_632)),
        ],
    )
}

// One microradian either side of the limits of an angle difference.
#[test]
fn differences(rt: HostRuntime) -> Result<(), Fail> {
    check_offers(
        &rt,
        PLAIN.with_line(BranchRow {
            angmin: Microradians(-70),
            angmax: Microradians(50),
            ..LINE
        }),
        &[
            Offer(-150, 950, -50, Ok(2_045_952)),
            Offer(-149, 949, -51, Err(Refused(14, 0))),
            Offer(-270, 1_070, 70, Ok(2_047_273)),
            Offer(-271, 1_071, 71, Err(Refused(14, 0))),
            Offer(-200, 1_000, 0, Ok(2_046_500)),
        ],
    )?;
    check_offers(
        &rt,
        PLAIN.with_line(BranchRow {
            angmin: Microradians(0),
            angmax: Microradians(0),
            ..LINE
        }),
        &[
            Offer(-200, 1_000, 0, Ok(2_046_500)),
            Offer(-199, 999, -1, Err(Refused(14, 0))),
            Offer(-201, 1_001, 1, Err(Refused(14, 0))),
        ],
    )?;
    check_offers(
        &rt,
        PLAIN.with_line(BranchRow {
            angmin: Microradians(10),
            angmax: Microradians(20),
            ..LINE
        }),
        &[
            Offer(-191, 991, -9, Err(Refused(14, 0))),
            Offer(-190, 990, -10, Ok(2_046_391)),
            Offer(-180, 980, -20, Ok(2_046_281)),
            Offer(-179, 979, -21, Err(Refused(14, 0))),
            Offer(-200, 1_000, 0, Err(Refused(14, 0))),
            Offer(-215, 1_015, 15, Err(Refused(14, 0))),
        ],
    )
}

// A shift is in the flow and not in the difference.
#[test]
fn shifts(rt: HostRuntime) -> Result<(), Fail> {
    check_offers(
        &rt,
        PLAIN.with_line(BranchRow {
            shift: Microradians(30),
            rating: Watts(20),
            angmin: Microradians(-70),
            angmax: Microradians(50),
            ..LINE
        }),
        &[
            Offer(-180, 980, -50, Ok(2_046_281)),
            Offer(-179, 979, -51, Err(Refused(13, 0))),
            Offer(-220, 1_020, -10, Ok(2_046_721)),
            Offer(-221, 1_021, -9, Err(Refused(13, 0))),
            Offer(-200, 1_000, -30, Ok(2_046_500)),
        ],
    )?;
    check_offers(
        &rt,
        PLAIN.with_line(BranchRow {
            susceptance: 3,
            shift: Microradians(-30),
            ..LINE
        }),
        &[
            Offer(-110, 910, 0, Ok(2_045_515)),
            Offer(-200, 1_000, 30, Ok(2_046_500)),
            Offer(-203, 1_003, 31, Ok(2_046_534)),
            Offer(-290, 1_090, 0, Err(Refused(12, 0))),
        ],
    )
}

// A branch out of service carries nothing and has no limits.
#[test]
fn out_of_service(rt: HostRuntime) -> Result<(), Fail> {
    check_offers(
        &rt,
        PLAIN.with_line(BranchRow {
            rating: Watts(1),
            angmin: Microradians(0),
            angmax: Microradians(0),
            service: false,
            ..LINE
        }),
        &[
            Offer(-200, 1_000, 0, Ok(2_046_500)),
            Offer(-200, 1_000, -2, Ok(2_046_500)),
            Offer(-200, 1_000, 2, Ok(2_046_500)),
            Offer(-200, 1_000, -3_200_000, Ok(2_046_500)),
            Offer(-200, 1_000, 3_200_000, Ok(2_046_500)),
            Offer(-200, 1_000, -3_200_001, Err(Refused(4, 1))),
            Offer(-199, 1_000, 0, Err(Refused(12, 0))),
            Offer(-200, 999, 0, Err(Refused(12, 1))),
            Offer(600, 200, -800, Err(Refused(12, 0))),
        ],
    )
}

// One microradian either side of the range of an angle.
#[test]
fn angle_ranges(rt: HostRuntime) -> Result<(), Fail> {
    check_offers(
        &rt,
        PLAIN,
        &[
            Offer(3_199_800, -3_199_000, -3_200_000, Ok(5_182_822_500)),
            Offer(-3_200_200, 3_201_000, 3_200_000, Ok(5_157_246_500)),
            Offer(3_199_801, -3_199_001, -3_200_001, Err(Refused(4, 1))),
            Offer(-3_200_201, 3_201_001, 3_200_001, Err(Refused(4, 1))),
            Offer(600, 200, i64::MAX, Err(Refused(4, 1))),
            Offer(600, 200, i64::MIN, Err(Refused(4, 1))),
        ],
    )
}

// One watt either side of the limits of each machine.
#[test]
fn power_limits(rt: HostRuntime) -> Result<(), Fail> {
    check_offers(
        &rt,
        Setting {
            demands: [5_000_000, -3_500_000, 0],
            ..PLAIN
        }
        .with_line(BranchRow {
            service: false,
            ..LINE
        }),
        &[
            Offer(5_000_000, -3_500_000, 0, Ok(6_272_002_000)),
            Offer(5_000_001, -3_500_000, 0, Err(Refused(11, 0))),
            Offer(5_000_000, -3_500_001, 0, Err(Refused(11, 1))),
            Offer(5_000_001, -3_500_001, 0, Err(Refused(11, 0))),
            Offer(4_999_999, -3_500_000, 0, Err(Refused(12, 0))),
            Offer(5_000_000, -3_499_999, 0, Err(Refused(12, 1))),
            Offer(i64::MAX, -3_500_000, 0, Err(Refused(11, 0))),
            Offer(5_000_000, i64::MIN, 0, Err(Refused(11, 1))),
        ],
    )?;
    check_offers(
        &rt,
        Setting {
            demands: [-4_000_000, 4_500_000, 0],
            ..PLAIN
        }
        .with_line(BranchRow {
            service: false,
            ..LINE
        }),
        &[
            Offer(-4_000_000, 4_500_000, 0, Ok(10_182_020_000)),
            Offer(-4_000_001, 4_500_000, 0, Err(Refused(11, 0))),
            Offer(-4_000_000, 4_500_001, 0, Err(Refused(11, 1))),
            Offer(-4_000_001, 4_500_001, 0, Err(Refused(11, 0))),
            Offer(-3_999_999, 4_500_000, 0, Err(Refused(12, 0))),
            Offer(-4_000_000, 4_499_999, 0, Err(Refused(12, 1))),
            Offer(i64::MIN, 4_500_000, 0, Err(Refused(11, 0))),
            Offer(-4_000_000, i64::MAX, 0, Err(Refused(11, 1))),
        ],
    )
}

// Dispatches that break two limits or more: the first test decides.
#[test]
fn order_of_refusals(rt: HostRuntime) -> Result<(), Fail> {
    check_offers(
        &rt,
        PLAIN.with_line(BranchRow {
            rating: Watts(800),
            angmin: Microradians(-900),
            angmax: Microradians(850),
            ..LINE
        }),
        &[
            Offer(5_000_001, 200, -3_200_001, Err(Refused(4, 1))),
            Offer(600, 4_500_001, 3_200_001, Err(Refused(4, 1))),
            Offer(600, 200, 3_200_001, Err(Refused(4, 1))),
            Offer(5_000_001, 200, -800, Err(Refused(11, 0))),
            Offer(601, 4_500_001, -801, Err(Refused(11, 1))),
            Offer(600, -3_500_001, -1_000, Err(Refused(11, 1))),
            Offer(601, 200, -801, Err(Refused(12, 1))),
            Offer(602, 200, -802, Err(Refused(12, 1))),
            Offer(600, 200, -3_200_000, Err(Refused(12, 0))),
            Offer(600, 200, -851, Err(Refused(12, 0))),
            Offer(651, 149, -851, Err(Refused(13, 0))),
            Offer(-1_101, 1_901, 901, Err(Refused(13, 0))),
            Offer(601, 199, -801, Err(Refused(13, 0))),
        ],
    )?;
    check_offers(
        &rt,
        PLAIN.with_line(BranchRow {
            rating: Watts(800),
            angmin: Microradians(-700),
            angmax: Microradians(700),
            ..LINE
        }),
        &[
            Offer(501, 299, -701, Err(Refused(14, 0))),
            Offer(502, 299, -701, Err(Refused(12, 0))),
            Offer(500, 300, -700, Ok(2_039_045)),
            Offer(601, 199, -801, Err(Refused(13, 0))),
        ],
    )
}

// Powers, demands, tolerance, shift and costs at their limits at once.
#[test]
fn powers_at_every_limit(rt: HostRuntime) -> Result<(), Fail> {
    check_offers(
        &rt,
        Setting {
            demands: [100_000_000, -100_000_000, 0],
            ..WIDEST
        }
        .with_line(BranchRow {
            susceptance: 100_000,
            shift: Microradians(1_600_000),
            rating: Watts(100_000_000),
            ..LINE
        }),
        &[
            Offer(
                100_000_000,
                -100_000_000,
                -1_600_001,
                Ok(505_000_000_000_000),
            ),
            Offer(100_000_000, -100_000_000, -1_600_002, Err(Refused(12, 0))),
            Offer(
                100_000_000,
                -100_000_000,
                -1_599_999,
                Ok(505_000_000_000_000),
            ),
            Offer(100_000_001, -100_000_000, -1_600_001, Err(Refused(11, 0))),
            Offer(100_000_000, -100_000_001, -1_600_001, Err(Refused(11, 1))),
            Offer(100_000_000, -100_000_000, 3_200_000, Err(Refused(12, 0))),
        ],
    )?;
    check_offers(
        &rt,
        Setting {
            demands: [-100_000_000, 100_000_000, 0],
            ..WIDEST
        }
        .with_line(BranchRow {
            susceptance: 100_000,
            shift: Microradians(-1_600_000),
            rating: Watts(100_000_000),
            ..LINE
        }),
        &[
            Offer(
                -100_000_000,
                100_000_000,
                1_600_001,
                Ok(105_000_000_000_000),
            ),
            Offer(
                -100_000_000,
                100_000_000,
                1_599_999,
                Ok(105_000_000_000_000),
            ),
            Offer(-100_000_000, 100_000_000, 1_599_998, Err(Refused(12, 0))),
            Offer(-100_000_000, 100_000_000, -3_200_000, Err(Refused(12, 0))),
        ],
    )
}

// Powers, demands, susceptance, shift and rating at their limits at once.
#[test]
fn flows_at_every_limit(rt: HostRuntime) -> Result<(), Fail> {
    check_offers(
        &rt,
        Setting {
            tolerance: 0,
            demands: [0, 100_000_000, 0],
            ..WIDEST
        }
        .with_line(BranchRow {
            susceptance: 1_000_000,
            shift: Microradians(1_600_000),
            rating: Watts(100_000_000),
            angmin: Microradians(-3_200_000),
            angmax: Microradians(3_200_000),
            ..LINE
        }),
        &[
            Offer(100_000_000, 0, -1_600_100, Ok(400_000_000_000_000)),
            Offer(100_000_000, -1, -1_600_100, Err(Refused(12, 1))),
            Offer(100_000_000, 100_000_000, 3_200_000, Err(Refused(12, 0))),
        ],
    )?;
    check_offers(
        &rt,
        Setting {
            tolerance: 0,
            demands: [0, -100_000_000, 0],
            ..WIDEST
        }
        .with_line(BranchRow {
            susceptance: 1_000_000,
            shift: Microradians(-1_600_000),
            rating: Watts(100_000_000),
            angmin: Microradians(-3_200_000),
            angmax: Microradians(3_200_000),
            ..LINE
        }),
        &[
            Offer(-100_000_000, 0, 1_600_100, Ok(200_000_000_000_000)),
            Offer(-100_000_000, 0, 1_600_101, Err(Refused(12, 0))),
            Offer(-100_000_000, 100_000_000, -3_200_000, Err(Refused(12, 0))),
        ],
    )
}
