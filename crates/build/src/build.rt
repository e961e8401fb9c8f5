// A case laid in lent tables.
ghost use Rattle.std.specs.Prelude.{IfOk, MatchResult};
ghost use Rattle.build.specs.Build.{Laid, NotLaid, WellFormed, laid_case, lent};

use crate::check::check;
use crate::fill::{fill_branches, fill_buses, fill_places};
use crate::tables::{LaidCase, Room, Rows};
use machine::machine::Machine;
use network::branch::Branch;
use network::bus::Bus;
use network::refusal::Refusal;

// Lays what is offered in the lent tables: buses, the row of each machine's bus in both groups, and branches. Every test comes before the
// first writing, so that a refusal leaves the tables as they were; what is written is what the tests found. Four tables, as `view` takes them.
pub fn lay<M: Machine, N: Machine>(
    rows: &Rows<M, N>,
    buses: &mut [Bus],
    first: &mut [u8],
    second: &mut [u8],
    branches: &mut [Branch],
) -> Result<LaidCase, Refusal>
    ensures laid { MatchResult result (λ n. Laid M.meaning N.meaning rows.now (lent buses.old first.old second.old branches.old) (lent buses.new first.new second.new branches.new) n) (λ e. NotLaid M.meaning N.meaning rows.now (lent buses.old first.old second.old branches.old) (lent buses.new first.new second.new branches.new) e) }
    ensures formed { IfOk result (λ n. WellFormed M.meaning N.meaning (laid_case rows.now (lent buses.new first.new second.new branches.new) n)) }
{
    let room = Room {
        buses: buses.len(),
        first: first.len(),
        second: second.len(),
        branches: branches.len(),
    };
    let tested = check(rows, &room)?;
    let places = &tested.places;
    fill_buses(rows.buses, buses);
    fill_places(rows.first, &places.first, first);
    fill_places(rows.second, &places.second, second);
    fill_branches(rows.branches, &places.ends, branches);
    Ok(tested.laid)
}
