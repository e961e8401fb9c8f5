// Buses.
ghost use Rattle.network.specs.Ranges.{BusRanges};

use measure::Watts;

// A bus: its name, and the power that it draws.
#[derive(Clone, Copy)]
pub struct Bus {
    pub name: u32,
    pub demand: Watts,
    ghost ok: { BusRanges name demand.0 },
}

impl Bus {
    // What stands in a row of a lent table before a case is laid there. Not its `Default`: it is no bus of a case.
    pub const BLANK: Bus = Bus {
        name: 1,
        demand: Watts(0),
    };
}
