// Dispatches, price lists and trials; a dispatch written out.
use crate::row::*;
use measure::column::Column;
use names::branch::BranchName;
use paper::dispatch::read_dispatch;
use paper::prices::read_prices;
use paper::trial::read_trial;
use paper::write::{WriteRefusal, write_dispatch};
use std::test::Fail;

// two machines and one bus after the first
#[test]
fn dispatches(rt: HostRuntime) -> Result<(), Fail> {
    let table = [
        lawful(&[0x1000_0002, A + 600, A + 400, 0x6fff_ffc4, END]),
        expect(&[0x1000_0002, A + 600], 2, 2),
        expect(&[0x1000_0002, A + 600, A + 400, A], 2, 4),
        expect(&[END], 3, 0),
        expect(&[0x1000_0002, A, END], 3, 2),
        expect(&[0x1000_0002, A, A, END], 3, 3),
        expect(&[0x1000_0002, A, A, A, A], 3, 4),
        expect(&[0x1000_0001, A, A, A, END], 4, 0),
        expect(&[0x1000_0002, A, A + 100_000_001, A, END], 4, 2),
        expect(&[0x1000_0002, A, A, A + 3_200_001, END], 4, 3),
        expect(&[0x1000_0002, A, A, A, END + 5], 4, 4),
        expect(&[0x1000_0002, A, A, A, END, A], 7, 5),
    ];
    check_rows(&rt, &table, |words| outcome(read_dispatch(words, 1, 1, 1)));
    let words = [0x1000_0002, A + 600, A + 400, 0x6fff_ffc4, END];
    let paper = read_dispatch(&words, 1, 1, 1)?;
    assert_eq!(rt; paper.first.at(0).0, 600);
    assert_eq!(rt; paper.second.at(0).0, 400);
    assert_eq!(rt; paper.second.at(1).0, 0);
    assert_eq!(rt; paper.angles.at(0).0, -60);
    Ok(())
}

// two buses and two branches
#[test]
fn price_lists(rt: HostRuntime) -> Result<(), Fail> {
    let table = [
        lawful(&[0x1000_0003, A + 30, A + 31, A + 1, A + 2, A + 3, A + 4, END]),
        lawful(&[0x1000_0003, A, A, A, A + 100_000_000, A, A, END]),
        expect(&[0x1000_0003, A, A, A, A, A, A], 2, 7),
        expect(&[0x1000_0003, A, A, A, A, END], 3, 5),
        expect(&[0x1000_0003, A, A, A, A, A, A, A], 3, 7),
        expect(&[0x1000_0002, A, A, A, A, A, A, END], 4, 0),
        expect(&[0x1000_0003, A, A + 1_000_001, A, A, A, A, END], 4, 2),
        expect(&[0x1000_0003, A, A, A + 1_000_001, A, A, A, END], 4, 3),
        expect(&[0x1000_0003, A, A, A, A + 100_000_001, A, A, END], 4, 4),
        expect(&[0x1000_0003, A, A, A, A, A + 1_000_001, A, END], 4, 5),
        expect(&[0x1000_0003, A, A, A, A, A, A, END, END], 7, 8),
    ];
    check_rows(&rt, &table, |words| outcome(read_prices(words, 2, 2)));
    let words = [0x1000_0003, A + 30, A + 31, A + 1, A + 2, A + 3, A + 4, END];
    let paper = read_prices(&words, 2, 2)?;
    assert_eq!(rt; paper.bus.column.at(1), 31);
    assert_eq!(rt; paper.congestion.column.at(0), 1);
    assert_eq!(rt; paper.congestion.column.at(1), 3);
    assert_eq!(rt; paper.angle.column.at(0), 2);
    assert_eq!(rt; paper.angle.column.at(1), 4);
    assert_eq!(rt; paper.angle.column.at(2), 0);
    Ok(())
}

// one bus and one branch
#[test]
fn trials(rt: HostRuntime) -> Result<(), Fail> {
    let table = [
        lawful(&[0x1000_0006, 0x5001_0102, A, A, A, END]),
        expect(&[0x1000_0006], 2, 1),
        expect(&[0x1000_0006, A], 3, 1),
        expect(&[0x1000_0003, 0x5001_0102, A, A, A, END], 4, 0),
        expect(&[0x1000_0006, 0x5001_0100, A, A, A, END], 4, 1),
        expect(&[0x1000_0006, 0x5001_0102, A, A + 1_000_001, A, END], 4, 3),
        expect(&[0x1000_0006, 0x5001_0102, A, A, A, END, END], 7, 6),
    ];
    check_rows(&rt, &table, |words| outcome(read_trial(words, 1, 1)));
    let words = [0x1000_0006, 0x5001_0102, A + 7, A + 8, A + 9, END];
    let paper = read_trial(&words, 1, 1)?;
    assert_eq!(rt;
        paper.branch,
        BranchName {
            circuit: 1,
            from: 1,
            to: 2,
        }
    );
    assert_eq!(rt; paper.list.bus.column.at(0), 7);
    assert_eq!(rt; paper.list.congestion.column.at(0), 8);
    assert_eq!(rt; paper.list.angle.column.at(0), 9);
    Ok(())
}

#[test]
fn written_dispatches(rt: HostRuntime) {
    let mut list = [9u32; 7];
    assert_eq!(rt; write_dispatch(&[600, 400], &[-60], &mut list), Ok(5));
    assert_eq!(rt; list[0], 0x1000_0002);
    assert_eq!(rt; list[3], 0x6fff_ffc4);
    assert_eq!(rt; list[4], END);
    assert_eq!(rt; list[5], 9);
    assert_eq!(rt;
        write_dispatch(&[600, 400], &[-60], &mut list[0..4]),
        Err(WriteRefusal::TooShort)
    );
    let refusal = WriteRefusal::TooShort;
    assert_eq!(rt; (refusal.number(), refusal.place()), (18, 0));
}
