// Days on the small harbour.
use crate::harbour::*;
use build::tables::Rows;
use case_paper::shown::Shown;
use measure::{Grains, Watts};
use panel::outcome::Outcome;
use panel::panel::Panel;
use panel::reading::Reading;
use panel::tables::Tables;
use sheet::gap::Gap;
use sheet::sheet::Sheet;
use std::iter::repeat;
use std::process::Abort;
use std::test::Fail;

// The sheet of the day.
const LINES: &[u8] =
    b"WATCH 7\nHELD 3\nPASSED 2\nDECLINED 3\nCHANGES 0\nCOST 24080\nFLOOR 24000\nGAP 80\n";

// A refusal as it is shown.
fn refusal(number: u32, place: usize) -> Shown {
    Shown { number, place }
}

// The page has the lines, and spaces after them.
fn check_page(rt: &impl Abort, page: &[u8], lines: &[u8]) {
    for (byte, due) in page.iter().zip(lines.iter().chain(repeat(&b' '))) {
        assert_eq!(rt; byte, due);
    }
}

#[test]
fn a_day(rt: HostRuntime) -> Result<(), Fail> {
    let mut tables = Tables::BLANK;
    let rows = Rows {
        tolerance: Watts(0),
        buses: &BUSES,
        first: &STEPPED,
        second: &CURVED,
        branches: &BRANCHES,
    };
    let mut panel = Panel::from_rows(&rows, &mut tables)?.man(7);
    assert_eq!(rt;
        panel.offer_dispatch(&DEAR),
        Ok(Outcome::Held(Grains(28_020)))
    );
    assert_eq!(rt;
        panel.offer_dispatch(&CHEAP),
        Ok(Outcome::Held(Grains(24_080)))
    );
    assert_eq!(rt;
        panel.offer_dispatch(&CHEAP),
        Ok(Outcome::Passed(Grains(24_080)))
    );
    assert_eq!(rt;
        panel.offer_dispatch(&UNEVEN).map_err(Shown::from),
        Err(refusal(12, 0))
    );
    assert_eq!(rt;
        panel.offer_dispatch(&HEAVY).map_err(Shown::from),
        Err(refusal(13, 0))
    );
    assert_eq!(rt;
        panel.offer_prices(&EVEN_PRICES),
        Ok(Outcome::Held(Grains(24_000)))
    );
    assert_eq!(rt;
        panel.offer_prices(&ODD_PRICES),
        Ok(Outcome::Passed(Grains(-31_975_500)))
    );
    assert_eq!(rt; panel.trial(&TRIAL), Ok(Grains(30_500)));
    assert_eq!(rt;
        panel.change_demand(&OTHER_DEMAND).map_err(Shown::from),
        Err(refusal(10, 1))
    );
    let reading = Reading {
        cost: Some(Grains(24_080)),
        floor: Some(Grains(24_000)),
        gap: Some(Gap(80)),
    };
    assert_eq!(rt; panel.read(), reading);
    let mut page = [0; 256];
    assert_eq!(rt;
        panel.hand_over(&[], &mut page).map_err(Shown::from),
        Err(refusal(2, 0))
    );
    assert_eq!(rt; page, [0; 256]);
    let (sheet, panel) = panel.stand_down(&mut page);
    let expected = Sheet {
        attendant: 7,
        held: 3,
        passed: 2,
        declined: 3,
        changes: 0,
        cost: Some(Grains(24_080)),
        floor: Some(Grains(24_000)),
    };
    assert_eq!(rt; sheet, expected);
    check_page(&rt, &page, LINES);
    assert_eq!(rt; panel.read(), reading);
    Ok(())
}
