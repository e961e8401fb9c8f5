// Changes of demand and of mark, and hand-overs.
use crate::row::*;
use measure::Watts;
use names::branch::BranchName;
use paper::change::*;
use paper::hand_over::read_hand_over;
use std::test::Fail;

#[test]
fn demand_changes(rt: HostRuntime) -> Result<(), Fail> {
    let table = [
        lawful(&[0x1000_0004, 0x2000_0002, 0x6fff_ffff, END]),
        lawful(&[0x1000_0004, 0x2000_00ff, A + 100_000_000, END]),
        expect(&[], 2, 0),
        expect(&[0x1000_0004], 2, 1),
        expect(&[0x1000_0004, 0x2000_0002, A], 2, 3),
        expect(&[A], 3, 0),
        expect(&[0x8000_0004], 3, 0),
        expect(&[0x1000_0004, 0x5001_0102, A, END], 3, 1),
        expect(&[0x1000_0004, 0x2000_0001, END], 3, 2),
        expect(&[0x1000_0004, 0x2000_0001, A, A], 3, 3),
        expect(&[0x1000_0005, 0x2000_0001, A, END], 4, 0),
        expect(&[0x1000_0004, 0x2000_0000, A, END], 4, 1),
        expect(&[0x1000_0004, 0x2000_0100, A, END], 4, 1),
        expect(&[0x1000_0004, 0x2000_0001, A + 100_000_001, END], 4, 2),
        expect(&[0x1000_0004, 0x2000_0001, A, END + 1], 4, 3),
        expect(&[0x1000_0004, 0x2000_0001, A, END, END], 7, 4),
    ];
    check_rows(&rt, &table, |words| outcome(read_demand_change(words)));
    let change = read_demand_change(&[0x1000_0004, 0x2000_0002, 0x6fff_ffff, END])?;
    assert_eq!(rt; change.bus, 2);
    assert_eq!(rt; change.demand, Watts(-1));
    Ok(())
}

#[test]
fn mark_changes(rt: HostRuntime) -> Result<(), Fail> {
    let table = [
        lawful(&[0x1000_0005, 0x5001_0203, A + 1, END]),
        lawful(&[0x1000_0005, 0x50ff_ffff, A, END]),
        expect(&[0x1000_0005, 0x5001_0203], 2, 2),
        expect(&[0x1000_0005, 0x2000_0001, A, END], 3, 1),
        expect(&[0x1000_0004, 0x5001_0203, A, END], 4, 0),
        expect(&[0x1000_0005, 0x5000_0203, A, END], 4, 1),
        expect(&[0x1000_0005, 0x5001_0003, A, END], 4, 1),
        expect(&[0x1000_0005, 0x5001_0200, A, END], 4, 1),
        expect(&[0x1000_0005, 0x5101_0203, A, END], 4, 1),
        expect(&[0x1000_0005, 0x5001_0203, A + 2, END], 4, 2),
        expect(&[0x1000_0005, 0x5001_0203, 0x6fff_ffff, END], 4, 2),
        expect(&[0x1000_0005, 0x5001_0203, A, END, 0], 7, 4),
    ];
    check_rows(&rt, &table, |words| outcome(read_mark_change(words)));
    let change = read_mark_change(&[0x1000_0005, 0x5001_0203, A + 1, END])?;
    assert_eq!(rt;
        change.branch,
        BranchName {
            circuit: 1,
            from: 2,
            to: 3,
        }
    );
    assert!(rt; change.in_service);
    Ok(())
}

#[test]
fn hand_overs(rt: HostRuntime) -> Result<(), Fail> {
    let table = [
        lawful(&[0x1000_0007, A, END]),
        lawful(&[0x1000_0007, A + 65_535, END]),
        expect(&[0x1000_0007, A], 2, 2),
        expect(&[0x1000_0007, END], 3, 1),
        expect(&[0x1000_0006, A, END], 4, 0),
        expect(&[0x1000_0007, A + 65_536, END], 4, 1),
        expect(&[0x1000_0007, 0x6fff_ffff, END], 4, 1),
        expect(&[0x1000_0007, A, END, A], 7, 3),
    ];
    check_rows(&rt, &table, |words| outcome(read_hand_over(words)));
    assert_eq!(rt; read_hand_over(&[0x1000_0007, A + 65_535, END])?, 65_535);
    Ok(())
}
