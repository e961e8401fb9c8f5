// What stepped machines answer, at and beside their points and limits.
use crate::tables::*;
use measure::Watts;
use std::test::Fail;
use stepped::stepped::Stepped;

// The first and the last slope go on outside the points.
#[test]
fn limits_beyond_the_points(rt: HostRuntime) -> Result<(), Fail> {
    let m = Stepped {
        bus: 1,
        lo: Watts(-500),
        hi: Watts(2_600),
        c: 0,
        n: 3,
        points: [
            Watts(0),
            Watts(600),
            Watts(2_000),
            Watts(0),
            Watts(0),
            Watts(0),
            Watts(0),
            Watts(0),
        ],
        slopes: [20, 50, 0, 0, 0, 0, 0],
    };
    let costs = [
        AtPower(-501, None),
        AtPower(-500, Some(-10_000)),
        AtPower(-499, Some(-9_980)),
        AtPower(-1, Some(-20)),
        AtPower(0, Some(0)),
        AtPower(1, Some(20)),
        AtPower(599, Some(11_980)),
        AtPower(600, Some(12_000)),
        AtPower(601, Some(12_050)),
        AtPower(1_999, Some(81_950)),
        AtPower(2_000, Some(82_000)),
        AtPower(2_001, Some(82_050)),
        AtPower(2_599, Some(111_950)),
        AtPower(2_600, Some(112_000)),
        AtPower(2_601, None),
    ];
    check_costs(&rt, &m, &costs)?;
    let margins = [
        AtPrice(-1_000_000, -500_010_000),
        AtPrice(0, -10_000),
        AtPrice(19, -500),
        AtPrice(20, 0),
        AtPrice(21, -600),
        AtPrice(49, -17_400),
        AtPrice(50, -18_000),
        AtPrice(51, -20_600),
        AtPrice(1_000_000, -2_599_888_000),
    ];
    check_margins(&rt, &m, &margins)
}

// A limit between two points; costs and a slope below 0.
#[test]
fn limits_inside_the_points(rt: HostRuntime) -> Result<(), Fail> {
    let m = Stepped {
        bus: 1,
        lo: Watts(-3_000),
        hi: Watts(1_400),
        c: -2,
        n: 4,
        points: [
            Watts(-1_000),
            Watts(0),
            Watts(700),
            Watts(1_500),
            Watts(0),
            Watts(0),
            Watts(0),
            Watts(0),
        ],
        slopes: [-30, 5, 40, 0, 0, 0, 0],
    };
    let costs = [
        AtPower(-3_001, None),
        AtPower(-3_000, Some(-1_940_000)),
        AtPower(-2_999, Some(-1_940_030)),
        AtPower(-1_001, Some(-1_999_970)),
        AtPower(-1_000, Some(-2_000_000)),
        AtPower(-999, Some(-2_000_030)),
        AtPower(-1, Some(-2_029_970)),
        AtPower(0, Some(-2_030_000)),
        AtPower(1, Some(-2_029_995)),
        AtPower(699, Some(-2_026_505)),
        AtPower(700, Some(-2_026_500)),
        AtPower(701, Some(-2_026_460)),
        AtPower(1_399, Some(-1_998_540)),
        AtPower(1_400, Some(-1_998_500)),
        AtPower(1_401, None),
    ];
    check_costs(&rt, &m, &costs)?;
    let margins = [
        AtPrice(-1_000_000, -3_001_940_000),
        AtPrice(-31, -2_033_000),
        AtPrice(-30, -2_030_000),
        AtPrice(-29, -2_030_000),
        AtPrice(0, -2_030_000),
        AtPrice(5, -2_030_000),
        AtPrice(6, -2_030_700),
        AtPrice(40, -2_054_500),
        AtPrice(41, -2_055_900),
        AtPrice(1_000_000, -1_401_998_500),
    ];
    check_margins(&rt, &m, &margins)
}

// Eight points, the widest ranges, and two equal slopes.
#[test]
fn most_points(rt: HostRuntime) -> Result<(), Fail> {
    let m = Stepped {
        bus: 1,
        lo: Watts(-100_000_000),
        hi: Watts(100_000_000),
        c: -100_000_000,
        n: 8,
        points: [
            Watts(-100_000_000),
            Watts(-70),
            Watts(-9),
            Watts(0),
            Watts(1),
            Watts(3),
            Watts(500),
            Watts(100_000_000),
        ],
        slopes: [-1_000_000, -7, -7, 0, 2, 9, 1_000_000],
    };
    let costs = [
        AtPower(-100_000_001, None),
        AtPower(-100_000_000, Some(-100_000_000_000_000)),
        AtPower(-99_999_999, Some(-100_000_001_000_000)),
        AtPower(-71, Some(-199_999_929_000_000)),
        AtPower(-70, Some(-199_999_930_000_000)),
        AtPower(-69, Some(-199_999_930_000_007)),
        AtPower(-10, Some(-199_999_930_000_420)),
        AtPower(-9, Some(-199_999_930_000_427)),
        AtPower(-8, Some(-199_999_930_000_434)),
        AtPower(-1, Some(-199_999_930_000_483)),
        AtPower(0, Some(-199_999_930_000_490)),
        AtPower(1, Some(-199_999_930_000_490)),
        AtPower(2, Some(-199_999_930_000_488)),
        AtPower(3, Some(-199_999_930_000_486)),
        AtPower(4, Some(-199_999_930_000_477)),
        AtPower(499, Some(-199_999_929_996_022)),
        AtPower(500, Some(-199_999_929_996_013)),
        AtPower(501, Some(-199_999_928_996_013)),
        AtPower(99_999_999, Some(-100_000_430_996_013)),
        AtPower(100_000_000, Some(-100_000_429_996_013)),
        AtPower(100_000_001, None),
    ];
    check_costs(&rt, &m, &costs)?;
    let margins = [
        AtPrice(-1_000_000, -200_000_000_000_000),
        AtPrice(-8, -199_999_930_000_560),
        AtPrice(-7, -199_999_930_000_490),
        AtPrice(0, -199_999_930_000_490),
        AtPrice(1, -199_999_930_000_491),
        AtPrice(2, -199_999_930_000_492),
        AtPrice(9, -199_999_930_000_513),
        AtPrice(10, -199_999_930_001_013),
        AtPrice(1_000_000, -200_000_429_996_013),
    ];
    check_margins(&rt, &m, &margins)
}

// Two points, and one power.
#[test]
fn fewest_points(rt: HostRuntime) -> Result<(), Fail> {
    let m = Stepped {
        bus: 1,
        lo: Watts(7),
        hi: Watts(7),
        c: 3,
        n: 2,
        points: [
            Watts(5),
            Watts(9),
            Watts(0),
            Watts(0),
            Watts(0),
            Watts(0),
            Watts(0),
            Watts(0),
        ],
        slopes: [4, 0, 0, 0, 0, 0, 0],
    };
    let costs = [
        AtPower(6, None),
        AtPower(7, Some(3_000_008)),
        AtPower(8, None),
    ];
    check_costs(&rt, &m, &costs)?;
    let margins = [
        AtPrice(-10, 3_000_078),
        AtPrice(0, 3_000_008),
        AtPrice(4, 2_999_980),
        AtPrice(1_000_000, -3_999_992),
    ];
    check_margins(&rt, &m, &margins)
}

const SOUND: Stepped = Stepped {
    bus: 1,
    lo: Watts(0),
    hi: Watts(10),
    c: 0,
    n: 3,
    points: [
        Watts(0),
        Watts(5),
        Watts(10),
        Watts(0),
        Watts(0),
        Watts(0),
        Watts(0),
        Watts(0),
    ],
    slopes: [1, 2, 0, 0, 0, 0, 0],
};

// Each row breaks one range or order.
#[test]
fn broken_rows_stand_idle(rt: HostRuntime) -> Result<(), Fail> {
    check_idle(
        &rt,
        &[
            Stepped { bus: 0, ..SOUND },
            Stepped { bus: 256, ..SOUND },
            Stepped {
                lo: Watts(-100_000_001),
                ..SOUND
            },
            Stepped {
                hi: Watts(100_000_001),
                ..SOUND
            },
            Stepped {
                lo: Watts(11),
                ..SOUND
            },
            Stepped {
                c: -100_000_001,
                ..SOUND
            },
            Stepped { n: 1, ..SOUND },
            Stepped { n: 9, ..SOUND },
        ],
    )?;
    check_idle(
        &rt,
        &[
            Stepped {
                points: [
                    Watts(-100_000_001),
                    Watts(5),
                    Watts(10),
                    Watts(0),
                    Watts(0),
                    Watts(0),
                    Watts(0),
                    Watts(0),
                ],
                ..SOUND
            },
            Stepped {
                points: [
                    Watts(0),
                    Watts(5),
                    Watts(100_000_001),
                    Watts(0),
                    Watts(0),
                    Watts(0),
                    Watts(0),
                    Watts(0),
                ],
                ..SOUND
            },
            Stepped {
                points: [
                    Watts(0),
                    Watts(5),
                    Watts(5),
                    Watts(0),
                    Watts(0),
                    Watts(0),
                    Watts(0),
                    Watts(0),
                ],
                ..SOUND
            },
            Stepped {
                slopes: [-1_000_001, 2, 0, 0, 0, 0, 0],
                ..SOUND
            },
            Stepped {
                slopes: [1, 1_000_001, 0, 0, 0, 0, 0],
                ..SOUND
            },
            Stepped {
                slopes: [2, 1, 0, 0, 0, 0, 0],
                ..SOUND
            },
        ],
    )
}
