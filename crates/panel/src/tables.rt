// The tables that a panel is lent.
use curved::curved::Curved;
use network::branch::Branch;
use network::bus::Bus;
use network::size::{BRANCHES, BUSES, MACHINES};
use stepped::stepped::Stepped;

// The most powers in a dispatch.
pub const POWERS: usize = 2 * MACHINES;
// The most angles in a dispatch: the reference has none.
pub const ANGLES: usize = BUSES - 1;

// Tables for the largest case: its buses, the rows of the machines' buses, its branches, and the powers and angles of the dispatch that is shown.
#[derive(Drop)]
pub struct Tables {
    pub buses: [Bus; BUSES],
    pub first: [u8; MACHINES],
    pub second: [u8; MACHINES],
    pub branches: [Branch; BRANCHES],
    pub powers: [i64; POWERS],
    pub angles: [i64; ANGLES],
}

impl Tables {
    // Tables before a case is laid in them.
    pub const BLANK: Tables = Tables {
        buses: [Bus::BLANK; BUSES],
        first: [0; MACHINES],
        second: [0; MACHINES],
        branches: [Branch::BLANK; BRANCHES],
        powers: [0; POWERS],
        angles: [0; ANGLES],
    };
}

// The machines of a case that is read from a paper.
#[derive(Drop)]
pub struct MachineTables {
    pub stepped: [Stepped; MACHINES],
    pub curved: [Curved; MACHINES],
}
