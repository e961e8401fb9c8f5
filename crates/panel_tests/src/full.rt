// A full watch takes no more offers and changes; the next attendant's does.
use crate::harbour::*;
use build::tables::Rows;
use case_paper::shown::Shown;
use measure::{Grains, Watts};
use panel::outcome::Outcome;
use panel::panel::Panel;
use panel::tables::Tables;
use std::test::Fail;

#[test]
fn a_full_watch(rt: HostRuntime) -> Result<(), Fail> {
    let mut tables = Tables::BLANK;
    let rows = Rows {
        tolerance: Watts(0),
        buses: &BUSES,
        first: &STEPPED,
        second: &CURVED,
        branches: &BRANCHES,
    };
    let mut panel = Panel::from_rows(&rows, &mut tables)?.man(0);
    for _ in 0..999_999 {
        let _ = panel.offer_dispatch(&[]);
    }
    assert_eq!(rt;
        panel.offer_dispatch(&CHEAP),
        Ok(Outcome::Held(Grains(24_080)))
    );
    let full = Shown {
        number: 1,
        place: 0,
    };
    assert_eq!(rt;
        panel.offer_dispatch(&CHEAP).map_err(Shown::from),
        Err(full)
    );
    assert_eq!(rt;
        panel.offer_prices(&EVEN_PRICES).map_err(Shown::from),
        Err(full)
    );
    assert_eq!(rt;
        panel.change_demand(&SAME_DEMAND).map_err(Shown::from),
        Err(full)
    );
    assert_eq!(rt; panel.change_mark(&OUT).map_err(Shown::from), Err(full));
    assert_eq!(rt; panel.trial(&TRIAL), Ok(Grains(30_500)));
    let mut page = [0; 256];
    let sheet = panel.hand_over(&NEXT, &mut page);
    let again = panel.offer_dispatch(&CHEAP);
    let (last, _) = panel.stand_down(&mut [0; 256]);
    let sheet = sheet?;
    assert_eq!(rt;
        (sheet.attendant, sheet.held, sheet.declined),
        (0, 1, 999_999)
    );
    assert_eq!(rt; sheet.cost, Some(Grains(24_080)));
    assert_eq!(rt; again, Ok(Outcome::Passed(Grains(24_080))));
    assert_eq!(rt; (last.attendant, last.passed, last.declined), (9, 1, 0));
    Ok(())
}
