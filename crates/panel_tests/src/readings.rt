// What is read out, and what changes and the tolerance do to it.
use crate::harbour::*;
use build::tables::Rows;
use case_paper::shown::Shown;
use curved::curved::Curved;
use measure::{Grains, Watts};
use network::size::MACHINES;
use panel::outcome::Outcome;
use panel::panel::Panel;
use panel::refused::{PaperRefused, RowsRefused};
use panel::tables::{MachineTables, Tables};
use std::test::Fail;
use stepped::stepped::Stepped;

#[test]
fn readings_out(rt: HostRuntime) -> Result<(), Fail> {
    let mut tables = Tables::BLANK;
    let rows = Rows {
        tolerance: Watts(0),
        buses: &BUSES,
        first: &STEPPED,
        second: &CURVED,
        branches: &BRANCHES,
    };
    let panel = Panel::from_rows(&rows, &mut tables)?;
    let mut list = [7; 6];
    let none = Shown {
        number: 17,
        place: 0,
    };
    assert_eq!(rt; panel.read_out(&mut list).map_err(Shown::from), Err(none));
    let mut panel = panel.man(1);
    assert_eq!(rt;
        panel.offer_dispatch(&CHEAP),
        Ok(Outcome::Held(Grains(24_080)))
    );
    let short = Shown {
        number: 18,
        place: 0,
    };
    assert_eq!(rt;
        panel.read_out(&mut list[..4]).map_err(Shown::from),
        Err(short)
    );
    assert_eq!(rt; list, [7; 6]);
    assert_eq!(rt; panel.read_out(&mut list), Ok(5));
    let [head, first, second, angle, end, later] = list;
    let words = [head, first, second, angle, end];
    assert_eq!(rt; words, CHEAP);
    assert_eq!(rt; later, 7);
    assert_eq!(rt;
        panel.offer_dispatch(&words),
        Ok(Outcome::Passed(Grains(24_080)))
    );
    assert_eq!(rt; panel.change_demand(&SAME_DEMAND), Ok(()));
    assert_eq!(rt; panel.read_out(&mut list).map_err(Shown::from), Err(none));
    assert_eq!(rt;
        panel.offer_dispatch(&words),
        Ok(Outcome::Held(Grains(24_080)))
    );
    assert_eq!(rt; panel.change_mark(&OUT), Ok(()));
    let unbalanced = Shown {
        number: 12,
        place: 0,
    };
    assert_eq!(rt;
        panel.offer_dispatch(&words).map_err(Shown::from),
        Err(unbalanced)
    );
    let (sheet, _) = panel.stand_down(&mut [0; 256]);
    assert_eq!(rt;
        (sheet.held, sheet.passed, sheet.declined, sheet.changes),
        (2, 1, 1, 2)
    );
    assert_eq!(rt; sheet.cost, None);
    Ok(())
}

// Two curved machines at bus 2, each of a group of its own, at a tolerance of 1 W.
#[test]
fn other_kinds(rt: HostRuntime) -> Result<(), Fail> {
    let mut tables = Tables::BLANK;
    let rows = Rows {
        tolerance: Watts(1),
        buses: &BUSES,
        first: &CURVED,
        second: &CURVED,
        branches: &BRANCHES,
    };
    let mut panel = Panel::from_rows(&rows, &mut tables)?.man(1);
    let halves = [0x1000_0002, A + 500, A + 500, A, END];
    let one_too_few = [0x1000_0002, A + 500, A + 499, A, END];
    assert_eq!(rt;
        panel.offer_dispatch(&halves),
        Ok(Outcome::Held(Grains(30_250)))
    );
    assert_eq!(rt;
        panel.offer_dispatch(&one_too_few),
        Ok(Outcome::Held(Grains(30_220)))
    );
    let (sheet, _) = panel.stand_down(&mut [0; 256]);
    assert_eq!(rt; sheet.held, 2);
    Ok(())
}

// Rows that are refused leave the lent tables as they were, and a panel is opened on those that come back.
#[test]
fn a_refused_case(rt: HostRuntime) -> Result<(), Fail> {
    let mut lent = Tables::BLANK;
    lent.buses[0].demand = Watts(5);
    let mut rows = Rows {
        tolerance: Watts(0),
        buses: &BUSES[1..],
        first: &STEPPED,
        second: &CURVED,
        branches: &BRANCHES,
    };
    let RowsRefused { refusal, tables } = match Panel::from_rows(&rows, &mut lent) {
        Ok(_) => return Err(Fail::new("not refused")),
        Err(refused) => refused,
    };
    let unknown = Shown {
        number: 9,
        place: 0,
    };
    assert_eq!(rt; Shown::from(refusal), unknown);
    assert_eq!(rt; tables.buses[0].demand, Watts(5));
    rows.buses = &BUSES;
    let panel = Panel::from_rows(&rows, tables)?;
    assert_eq!(rt; panel.read().cost, None);
    Ok(())
}

// The case of one bus.
const ONE_BUS: [u32; 9] = [0x1000_0001, A, A + 1, A, A, A, 0x2000_0001, A, END];

// The same of its paper without the end word.
#[test]
fn a_refused_paper(rt: HostRuntime) -> Result<(), Fail> {
    let mut machines = MachineTables {
        stepped: [Stepped::default(); MACHINES],
        curved: [Curved::default(); MACHINES],
    };
    let mut tables = Tables::BLANK;
    let PaperRefused {
        fault,
        machines,
        tables,
    } = match Panel::from_paper(&ONE_BUS[..8], &mut machines, &mut tables) {
        Ok(_) => return Err(Fail::new("not refused")),
        Err(refused) => refused,
    };
    let stops = Shown {
        number: 2,
        place: 8,
    };
    assert_eq!(rt; Shown::from(fault), stops);
    let panel = Panel::from_paper(&ONE_BUS, machines, tables)?;
    assert_eq!(rt; panel.read().cost, None);
    Ok(())
}
