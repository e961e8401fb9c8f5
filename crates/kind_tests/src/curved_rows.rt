// What curved machines answer, at and beside their limits, and where the answers are rounded.
use crate::tables::*;
use curved::curved::Curved;
use measure::Watts;
use std::test::Fail;

// Margins at the limits, rounded down; costs rounded up.
#[test]
fn between_near_limits(rt: HostRuntime) -> Result<(), Fail> {
    let m = Curved {
        bus: 255,
        lo: Watts(-1_500),
        hi: Watts(1_500),
        c0: -3,
        c1: 30,
        c2: 7,
    };
    let costs = [
        AtPower(-1_501, None),
        AtPower(-1_500, Some(-3_044_984)),
        AtPower(-1_499, Some(-3_044_954)),
        AtPower(-379, Some(-3_011_368)),
        AtPower(-378, Some(-3_011_338)),
        AtPower(-377, Some(-3_011_309)),
        AtPower(-1, Some(-3_000_029)),
        AtPower(0, Some(-3_000_000)),
        AtPower(1, Some(-2_999_969)),
        AtPower(377, Some(-2_988_689)),
        AtPower(378, Some(-2_988_658)),
        AtPower(379, Some(-2_988_628)),
        AtPower(1_499, Some(-2_955_014)),
        AtPower(1_500, Some(-2_954_984)),
        AtPower(1_501, None),
    ];
    check_costs(&rt, &m, &costs)?;
    let margins = [
        AtPrice(-1_000_000, -1_503_044_985),
        AtPrice(29, -3_001_485),
        AtPrice(30, -3_000_000),
        AtPrice(31, -3_001_485),
        AtPrice(1_000_000, -1_502_954_985),
    ];
    check_margins(&rt, &m, &margins)
}

// The widest limits and the greatest c2.
#[test]
fn widest_ranges(rt: HostRuntime) -> Result<(), Fail> {
    let m = Curved {
        bus: 255,
        lo: Watts(-100_000_000),
        hi: Watts(100_000_000),
        c0: 100,
        c1: -250,
        c2: 500,
    };
    let costs = [
        AtPower(-100_000_001, None),
        AtPower(-100_000_000, Some(5_025_100_000_000)),
        AtPower(-99_999_999, Some(5_025_099_899_751)),
        AtPower(-46, Some(100_011_502)),
        AtPower(-45, Some(100_011_252)),
        AtPower(-44, Some(100_011_001)),
        AtPower(-1, Some(100_000_251)),
        AtPower(0, Some(100_000_000)),
        AtPower(1, Some(99_999_751)),
        AtPower(44, Some(99_989_001)),
        AtPower(45, Some(99_988_752)),
        AtPower(46, Some(99_988_502)),
        AtPower(99_999_999, Some(4_975_099_900_251)),
        AtPower(100_000_000, Some(4_975_100_000_000)),
        AtPower(100_000_001, None),
    ];
    check_costs(&rt, &m, &costs)?;
    let margins = [
        AtPrice(-1_000_000, -94_974_900_000_000),
        AtPrice(-251, 99_999_500),
        AtPrice(-250, 100_000_000),
        AtPrice(-249, 99_999_500),
        AtPrice(-248, 99_998_000),
        AtPrice(0, 68_750_000),
        AtPrice(99_750, -4_999_900_000_000),
        AtPrice(1_000_000, -95_024_900_000_000),
    ];
    check_margins(&rt, &m, &margins)
}

// Margins at the vertex, in thirds of a grain, and where it leaves the limits.
#[test]
fn margins_in_thirds(rt: HostRuntime) -> Result<(), Fail> {
    let m = Curved {
        bus: 255,
        lo: Watts(-100_000_000),
        hi: Watts(50_000_000),
        c0: -5,
        c1: 40,
        c2: 3,
    };
    let costs = [
        AtPower(-100_000_001, None),
        AtPower(-100_000_000, Some(25_995_000_000)),
        AtPower(-99_999_999, Some(25_994_999_441)),
        AtPower(-1, Some(-5_000_039)),
        AtPower(0, Some(-5_000_000)),
        AtPower(1, Some(-4_999_959)),
        AtPower(576, Some(-4_976_959)),
        AtPower(577, Some(-4_976_919)),
        AtPower(578, Some(-4_976_878)),
        AtPower(999, Some(-4_960_037)),
        AtPower(1_000, Some(-4_959_997)),
        AtPower(1_001, Some(-4_959_956)),
        AtPower(49_999_999, Some(9_494_999_661)),
        AtPower(50_000_000, Some(9_495_000_000)),
        AtPower(50_000_001, None),
    ];
    check_costs(&rt, &m, &costs)?;
    let margins = [
        AtPrice(-1_000_000, -99_974_005_000_000),
        AtPrice(-561, -30_105_000_000),
        AtPrice(-560, -30_005_000_000),
        AtPrice(-559, -29_905_083_334),
        AtPrice(38, -5_333_334),
        AtPrice(39, -5_083_334),
        AtPrice(40, -5_000_000),
        AtPrice(41, -5_083_334),
        AtPrice(42, -5_333_334),
        AtPrice(339, -7_455_083_334),
        AtPrice(340, -7_505_000_000),
        AtPrice(341, -7_555_000_000),
        AtPrice(1_000_000, -49_990_505_000_000),
    ];
    check_margins(&rt, &m, &margins)
}

const SOUND: Curved = Curved {
    bus: 1,
    lo: Watts(0),
    hi: Watts(10),
    c0: 0,
    c1: 1,
    c2: 1,
};

// Each row breaks one range or order.
#[test]
fn broken_rows_stand_idle(rt: HostRuntime) -> Result<(), Fail> {
    check_idle(
        &rt,
        &[
            Curved { bus: 0, ..SOUND },
            Curved { bus: 256, ..SOUND },
            Curved {
                lo: Watts(-100_000_001),
                ..SOUND
            },
            Curved {
                hi: Watts(100_000_001),
                ..SOUND
            },
            Curved {
                lo: Watts(11),
                ..SOUND
            },
        ],
    )?;
    check_idle(
        &rt,
        &[
            Curved {
                c0: -100_000_001,
                ..SOUND
            },
            Curved {
                c0: 100_000_001,
                ..SOUND
            },
            Curved {
                c1: -1_000_001,
                ..SOUND
            },
            Curved {
                c1: 1_000_001,
                ..SOUND
            },
            Curved { c2: 0, ..SOUND },
            Curved { c2: 501, ..SOUND },
        ],
    )
}
