// Whole sheets, and gaps.
use measure::Grains;
use sheet::gap::Gap;
use sheet::sheet::Sheet;
use std::iter::repeat;
use std::process::Abort;

// No counts and no figures, written out: `Sheet` has no `Default`, since only these tests begin with a sheet of nothing.
const QUIET: Sheet = Sheet {
    attendant: 0,
    held: 0,
    passed: 0,
    declined: 0,
    changes: 0,
    cost: None,
    floor: None,
};

// The page has these lines, and spaces after them.
fn check_page(rt: &impl Abort, sheet: Sheet, lines: &[u8]) {
    let page = sheet.write();
    assert_eq!(rt; page.text(), lines);
    for (byte, due) in page.bytes.iter().zip(lines.iter().chain(repeat(&b' '))) {
        assert_eq!(rt; byte, due);
    }
}

#[test]
fn a_watch_with_a_gap(rt: HostRuntime) {
    let sheet = Sheet {
        attendant: 1,
        held: 2,
        cost: Some(Grains(24080)),
        floor: Some(Grains(24000)),
        ..QUIET
    };
    check_page(
        &rt,
        sheet,
        b"WATCH 1\nHELD 2\nPASSED 0\nDECLINED 0\nCHANGES 0\nCOST 24080\nFLOOR 24000\nGAP 80\n",
    );
}

#[test]
fn missing_figures(rt: HostRuntime) {
    check_page(
        &rt,
        QUIET,
        b"WATCH 0\nHELD 0\nPASSED 0\nDECLINED 0\nCHANGES 0\nCOST -\nFLOOR -\nGAP -\n",
    );
    let floor = Sheet {
        passed: 10,
        floor: Some(Grains(0)),
        ..QUIET
    };
    check_page(
        &rt,
        floor,
        b"WATCH 0\nHELD 0\nPASSED 10\nDECLINED 0\nCHANGES 0\nCOST -\nFLOOR 0\nGAP -\n",
    );
    let cost = Sheet {
        declined: 109,
        cost: Some(Grains(-5)),
        ..QUIET
    };
    check_page(
        &rt,
        cost,
        b"WATCH 0\nHELD 0\nPASSED 0\nDECLINED 109\nCHANGES 0\nCOST -5\nFLOOR -\nGAP -\n",
    );
}

#[test]
fn a_cost_below_the_floor(rt: HostRuntime) {
    let sheet = Sheet {
        attendant: 40,
        changes: 3,
        cost: Some(Grains(-1200)),
        floor: Some(Grains(-200)),
        ..QUIET
    };
    check_page(
        &rt,
        sheet,
        b"WATCH 40\nHELD 0\nPASSED 0\nDECLINED 0\nCHANGES 3\nCOST -1200\nFLOOR -200\nGAP -1000\n",
    );
}

#[test]
fn the_longest_figures(rt: HostRuntime) {
    let most = Sheet {
        attendant: u16::MAX,
        held: u32::MAX,
        passed: u32::MAX,
        declined: u32::MAX,
        changes: u32::MAX,
        cost: Some(Grains(i64::MIN)),
        floor: Some(Grains(i64::MAX)),
    };
    check_page(
        &rt,
        most,
        b"WATCH 65535\nHELD 4294967295\nPASSED 4294967295\nDECLINED 4294967295\nCHANGES 4294967295\nCOST -9223372036854775808\nFLOOR 9223372036854775807\nGAP -18446744073709551615\n",
    );
    let gap = Sheet {
        cost: Some(Grains(i64::MAX)),
        floor: Some(Grains(i64::MIN)),
        ..QUIET
    };
    check_page(
        &rt,
        gap,
        b"WATCH 0\nHELD 0\nPASSED 0\nDECLINED 0\nCHANGES 0\nCOST 9223372036854775807\nFLOOR -9223372036854775808\nGAP 18446744073709551615\n",
    );
}

#[test]
fn gaps(rt: HostRuntime) {
    let (low, high) = (Some(Grains(7)), Some(Grains(9)));
    assert_eq!(rt; Gap::between(low, high), Some(Gap(-2)));
    assert_eq!(rt; Gap::between(high, low), Some(Gap(2)));
    assert_eq!(rt; Gap::between(high, None), None);
    assert_eq!(rt; Gap::between(None, high), None);
}
