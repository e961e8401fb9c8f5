// Sums over two machines of each kind.
use crate::tables::*;
use curved::curved::Curved;
use machine::group::{total_cost, total_margin};
use machine::machine::Machine;
use measure::Watts;
use measure::column::Table;
use measure::measured::{PowerColumn, PriceColumn};
use measure::price::Price;
use std::process::Abort;
use std::test::Fail;
use stepped::stepped::Stepped;

// The powers of two machines, and the sum of their costs or the row of one that does not allow its power.
#[derive(Clone, Copy)]
struct AtPowers(i64, i64, Result<i64, usize>);

fn cost_of_two<M: Machine>(machines: &[M; 2], first: i64, second: i64) -> Result<i64, usize> {
    let powers = [first, second];
    let powers = PowerColumn::new(Table { values: &powers });
    total_cost(machines, &powers).map(|grains| grains.0)
}

// Not `check_costs`, which asks one machine for its cost and whether it allows a power: this asks a group for its sum, or the row that fails.
#[cfg(test)]
fn check_costs_of_two<M: Machine>(
    rt: &impl Abort,
    machines: &[M; 2],
    table: &[AtPowers],
) -> Result<(), Fail> {
    for &AtPowers(first, second, expected) in table {
        assert_eq!(rt; cost_of_two(machines, first, second), expected);
    }
    Ok(())
}

// The prices of two machines, and the sum of their margins.
#[derive(Clone, Copy)]
struct AtPrices(i64, i64, i64);

fn margin_of_two<M: Machine>(machines: &[M; 2], first: Price, second: Price) -> i64 {
    let prices = [first.get(), second.get()];
    let column = Table { values: &prices };
    total_margin(machines, &PriceColumn { column }).0
}

// Not `check_margins` either: a group's sum, at a price for each machine.
#[cfg(test)]
fn check_margins_of_two<M: Machine>(
    rt: &impl Abort,
    machines: &[M; 2],
    table: &[AtPrices],
) -> Result<(), Fail> {
    for &AtPrices(first, second, expected) in table {
        let margin = margin_of_two(machines, price(first)?, price(second)?);
        assert_eq!(rt; margin, expected);
    }
    Ok(())
}

#[test]
fn two_stepped(rt: HostRuntime) -> Result<(), Fail> {
    let machines = [
        Stepped {
            bus: 1,
            lo: Watts(0),
            hi: Watts(2_000),
            c: 0,
            n: 3,
            points: [
                Watts(0),
                Watts(600),
                Watts(2_000),
                Watts(0),
                Watts(0),
                Watts(0),
                Watts(0),
                Watts(0),
            ],
            slopes: [20, 50, 0, 0, 0, 0, 0],
        },
        Stepped {
            bus: 1,
            lo: Watts(-100),
            hi: Watts(100),
            c: -1,
            n: 2,
            points: [
                Watts(-100),
                Watts(0),
                Watts(0),
                Watts(0),
                Watts(0),
                Watts(0),
                Watts(0),
                Watts(0),
            ],
            slopes: [-8, 0, 0, 0, 0, 0, 0],
        },
    ];
    let costs = [
        AtPowers(600, -100, Ok(-988_000)),
        AtPowers(2_000, 100, Ok(-919_600)),
        AtPowers(601, 101, Err(1)),
        AtPowers(2_001, 0, Err(0)),
    ];
    check_costs_of_two(&rt, &machines, &costs)?;
    check_margins_of_two(
        &rt,
        &machines,
        &[
            AtPrices(30, -9, -1_006_900),
            AtPrices(1_000_000, -1_000_000, -2_100_918_000),
        ],
    )
}

#[test]
fn two_curved(rt: HostRuntime) -> Result<(), Fail> {
    let machines = [
        Curved {
            bus: 2,
            lo: Watts(0),
            hi: Watts(1_000),
            c0: 0,
            c1: 30,
            c2: 500,
        },
        Curved {
            bus: 1,
            lo: Watts(-50),
            hi: Watts(50),
            c0: 2,
            c1: -7,
            c2: 3,
        },
    ];
    let costs = [
        AtPowers(400, -50, Ok(2_012_431)),
        AtPowers(1, 1, Ok(2_000_025)),
        AtPowers(1_000, 51, Err(1)),
        AtPowers(1_001, 0, Err(0)),
    ];
    check_costs_of_two(&rt, &machines, &costs)?;
    check_margins_of_two(
        &rt,
        &machines,
        &[
            AtPrices(31, -7, 1_999_500),
            AtPrices(1_000_000, -1_000_000, -1_047_969_150),
        ],
    )
}
