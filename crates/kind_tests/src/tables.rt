// Rows of expected answers, and checks of a machine of any kind against them.
use machine::machine::Machine;
use measure::Watts;
use measure::price::Price;
use std::process::Abort;
use std::test::Fail;

// A power in watts, and the cost there in grains; none where it is not allowed.
#[derive(Clone, Copy)]
pub struct AtPower(pub i64, pub Option<i64>);

// A price in grains per watt-hour, and the margin there in grains.
#[derive(Clone, Copy)]
pub struct AtPrice(pub i64, pub i64);

// The price of that many grains per watt-hour.
#[cfg(test)]
pub(crate) fn price(value: i64) -> Result<Price, Fail> {
    Price::new(value).ok_or_else(|| Fail::new("no price"))
}

#[cfg(test)]
pub(crate) fn check_costs<M: Machine>(
    rt: &impl Abort,
    machine: &M,
    table: &[AtPower],
) -> Result<(), Fail> {
    for &AtPower(power, expected) in table {
        let cost = machine.cost(Watts(power)).map(|grains| grains.0);
        assert_eq!(rt; cost, expected);
        assert_eq!(rt; machine.allows(Watts(power)), expected.is_some());
    }
    Ok(())
}

#[cfg(test)]
pub(crate) fn check_margins<M: Machine>(
    rt: &impl Abort,
    machine: &M,
    table: &[AtPrice],
) -> Result<(), Fail> {
    for &AtPrice(value, expected) in table {
        assert_eq!(rt; machine.margin(price(value)?).0, expected);
    }
    Ok(())
}

// Each machine allows only 0 W, at cost 0.
#[cfg(test)]
pub(crate) fn check_idle<M: Machine>(rt: &impl Abort, machines: &[M]) -> Result<(), Fail> {
    for machine in machines {
        check_costs(
            rt,
            machine,
            &[AtPower(-1, None), AtPower(0, Some(0)), AtPower(1, None)],
        )?;
        check_margins(
            rt,
            machine,
            &[AtPrice(-1_000_000, 0), AtPrice(1_000_000, 0)],
        )?;
    }
    Ok(())
}
