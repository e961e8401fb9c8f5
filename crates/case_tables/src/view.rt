// The case that was read, as it stands in the tables.
ghost use Rattle.std.specs.Prelude.{◌≡◌};
ghost use Rattle.network.specs.View.{case_of};
ghost use Rattle.case_tables.specs.Read.{tables, held_case};

use build::tables::LaidCase;
use curved::curved::Curved;
use network::branch::Branch;
use network::bus::Bus;
use network::case::{Case, Machines};
use stepped::stepped::Stepped;

// A view of the case in the tables that it was read into. Not by build's view: that one takes the machines from the rows that were offered, and
// here they stand in lent tables too. Six tables, as `read_case` is lent them.
pub fn view<'a>(
    read: LaidCase,
    buses: &'a [Bus],
    stepped: &'a [Stepped],
    first: &'a [u8],
    curved: &'a [Curved],
    second: &'a [u8],
    branches: &'a [Branch],
) -> Case<'a, Stepped, Curved>
    ensures { case_of result ≡ held_case read (tables buses.now stepped.now first.now curved.now second.now branches.now) }
{
    let first = Machines {
        rows: stepped,
        places: first,
        count: read.counts.first,
    };
    let second = Machines {
        rows: curved,
        places: second,
        count: read.counts.second,
    };
    Case {
        tolerance: read.tolerance,
        buses,
        nb: read.counts.buses,
        first,
        second,
        branches,
        nl: read.counts.branches,
    }
}
