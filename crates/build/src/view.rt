// The case that filled tables hold.
ghost use Rattle.std.specs.Prelude.{◌≡◌};
ghost use Rattle.network.specs.View.{case_of};
ghost use Rattle.build.specs.Build.{laid_case, lent};

use crate::tables::{LaidCase, Rows};
use network::branch::Branch;
use network::bus::Bus;
use network::case::{Case, Machines};

// A view of the case that was laid: the machines that were offered, and the tables in which the rest was laid. Four tables, not a struct of
// them: that has one lifetime, where the tables of a caller may have several.
pub fn view<'a, M, N>(
    rows: &Rows<'a, M, N>,
    buses: &'a [Bus],
    first: &'a [u8],
    second: &'a [u8],
    branches: &'a [Branch],
    laid: LaidCase,
) -> Case<'a, M, N>
    ensures { case_of result ≡ laid_case rows.now (lent buses.now first.now second.now branches.now) laid }
{
    let LaidCase { tolerance, counts } = laid;
    Case {
        tolerance,
        buses,
        nb: counts.buses,
        first: Machines {
            rows: rows.first,
            places: first,
            count: counts.first,
        },
        second: Machines {
            rows: rows.second,
            places: second,
            count: counts.second,
        },
        branches,
        nl: counts.branches,
    }
}
