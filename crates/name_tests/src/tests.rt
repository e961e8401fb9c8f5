// A short table of cases.
use super::*;

fn bus(name: u32) -> Bus {
    Bus { name, load: 0 }
}

fn branch(circuit: u32, from: u32, to: u32) -> Branch {
    Branch {
        name: BranchName { circuit, from, to },
        rating: 1,
    }
}

#[test]
fn buses_are_found_at_their_lowest_row(rt: HostRuntime) {
    let buses = [bus(7), bus(4), bus(9), bus(4), bus(2)];
    assert_eq!(rt; bus_row(&buses, 7), Some(0), "first");
    assert_eq!(rt; bus_row(&buses, 2), Some(4), "last");
    assert_eq!(rt; bus_row(&buses, 4), Some(1), "the lowest of two");
    assert_eq!(rt; bus_row(&buses, 3), None, "none");
    assert_eq!(rt; bus_row(&[], 3), None, "no rows");
}

#[test]
fn branches_are_found_by_all_three_numbers(rt: HostRuntime) {
    let branches = [branch(1, 4, 5), branch(2, 4, 5), branch(1, 5, 4)];
    let list = NameList { rows: &branches };
    assert_eq!(rt; list.find(&branch(1, 4, 5).name), Some(0), "first");
    assert_eq!(rt;
        list.find(&branch(2, 4, 5).name),
        Some(1),
        "another circuit"
    );
    assert_eq!(rt; list.find(&branch(1, 5, 4).name), Some(2), "reversed ends");
    assert_eq!(rt; list.find(&branch(2, 5, 4).name), None, "none");
}

#[test]
fn repeated_buses(rt: HostRuntime) {
    let distinct = [bus(7), bus(4), bus(9)];
    assert_eq!(rt; NameList { rows: &distinct }.repeated(), None, "none");
    let twice = [bus(7), bus(4), bus(7), bus(4)];
    assert_eq!(rt;
        NameList { rows: &twice }.repeated(),
        Some(2),
        "the lowest of two"
    );
}

#[test]
fn repeated_branches(rt: HostRuntime) {
    let reversed = [branch(1, 4, 5), branch(2, 4, 5), branch(1, 5, 4)];
    assert_eq!(rt; repeated_branch(&reversed), None, "reversed ends");
    assert!(rt; has_distinct_names(&reversed));
    let twice = [branch(1, 4, 5), branch(2, 4, 5), branch(2, 4, 5)];
    assert_eq!(rt; repeated_branch(&twice), Some(2), "at the end");
    assert!(rt; !has_distinct_names(&twice));
}
