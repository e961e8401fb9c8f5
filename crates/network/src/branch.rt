// Branches.
ghost use Rattle.std.specs.Prelude.{◌≡◌, pos, ◌-ℤ◌, ◌≤ℤ◌, ◌==◌};
ghost use Rattle.measure.specs.Range.{Within};
ghost use Rattle.measure.specs.Rows.{only};
ghost use Rattle.network.specs.Ranges.{NameRange, Limits};

use measure::range::only_if;
use measure::{Microradians, Watts};
use names::branch::BranchName;

// The rows of the buses at the two ends of a branch.
#[derive(Clone, Copy)]
pub struct Ends {
    pub from: u8,
    pub to: u8,
}

impl Ends {
    // What leaves the bus in that row, less what arrives there, of an amount that goes from the from end to the to end.
    pub fn leaving(self, bus: usize, amount: i64) -> i64
        requires { Within 36000000000000000 amount }
        ensures { result ≡ only (self.from == bus) amount -ℤ only (self.to == bus) amount }
    {
        let leaving = only_if(usize::from(self.from) == bus, amount);
        let arriving = only_if(usize::from(self.to) == bus, amount);
        leaving - arriving
    }
}

// A branch: its name, where its ends stand in the table of buses, its susceptance in watts per microradian, its phase shift, its rating
// (0 for no limit, as cases write it; an Option would be taken apart in each product and each test), the limits of the angle difference between its ends, and whether it is in service.
#[derive(Clone, Copy)]
pub struct Branch {
    pub name: BranchName,
    pub ends: Ends,
    pub susceptance: i64,
    pub shift: Microradians,
    pub rating: Watts,
    pub angmin: Microradians,
    pub angmax: Microradians,
    pub service: bool,
    ghost named: { NameRange name.circuit × NameRange name.from × NameRange name.to },
    ghost susceptible: { (pos 1 ≤ℤ susceptance) × (susceptance ≤ℤ pos 1000000) },
    ghost shifted: { Within 1600000 shift.0 },
    ghost rated: { (pos 0 ≤ℤ rating.0) × (rating.0 ≤ℤ pos 100000000) },
    ghost limited: { Limits angmin.0 angmax.0 },
}

impl Branch {
    // Every susceptance is 1 to this many watts per microradian.
    pub const MOST_SUSCEPTANCE: i64 = 1_000_000;

    // Every phase shift lies within ± this many microradians.
    pub const SHIFT_LIMIT: i64 = 1_600_000;

    // Every limit of an angle difference lies within ± this many microradians.
    pub const DIFFERENCE_LIMIT: i64 = 6_400_000;

    // What stands in a row of a lent table before a case is laid there. Not its `Default`: it is no branch of a case.
    pub const BLANK: Branch = Branch {
        name: BranchName {
            circuit: 1,
            from: 1,
            to: 1,
        },
        ends: Ends { from: 0, to: 0 },
        susceptance: 1,
        shift: Microradians(0),
        rating: Watts(0),
        angmin: Microradians(0),
        angmax: Microradians(0),
        service: false,
    };
}
