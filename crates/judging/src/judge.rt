// Judging a whole dispatch.
ghost use Rattle.std.specs.Prelude.{◌≡◌, ◌+ℤ◌, MatchResult};
ghost use Rattle.machine.specs.Group.{Counted, counted_cost};
ghost use Rattle.network.specs.Judged.{Judged, PowersAllowed, PowerRefused};
ghost use Rattle.judging.specs.Judging.{CostAnswer};
ghost use Rattle.network.specs.View.{case_of, dispatch_of};

use crate::angles::Angles;
use crate::balance::Balance;
use crate::flows::Flows;
use machine::group::total_cost;
use machine::machine::Machine;
use measure::Grains;
use measure::column::Column;
use network::case::Case;
use network::dispatch::Dispatch;
use network::refusal::Refusal;

// The sum of the machines' costs, or the row of a machine that does not allow its power.
fn cost<M: Machine, N: Machine, C: Column>(
    case: &Case<M, N>,
    dispatch: &Dispatch<C>,
) -> Result<Grains, Refusal>
    ensures { CostAnswer M.meaning N.meaning (case_of case.now) (dispatch_of C.value dispatch.now) result }
{
    let first = case.first.used();
    let second = case.second.used();
    let one = total_cost(first, &dispatch.first).map_err(Refusal::NotAllowed)?;
    // A match, not `map_err`: here the row is known to be one of the group's, so that the sum fits.
    match total_cost(second, &dispatch.second) {
        Err(row) => Err(Refusal::NotAllowed(first.len() + row)),
        Ok(other) => Ok(Grains(one.0 + other.0)),
    }
}

// The counted cost of a dispatch that meets the case, or the limit that it breaks.
pub fn judge<M: Machine, N: Machine, C: Column>(
    case: &Case<M, N>,
    dispatch: &Dispatch<C>,
) -> Result<Grains, Refusal>
    ensures { Judged M.meaning N.meaning (case_of case.now) (dispatch_of C.value dispatch.now) result }
{
    let angles = Angles {
        given: &dispatch.angles,
        buses: case.bus_count(),
    };
    // An `if let` at each limit, since each has a refusal of its own for the row.
    if let Some(row) = angles.out_of_range() {
        return Err(Refusal::OutOfRange(row));
    }
    let cost = cost(case, dispatch)?;
    let balance = Balance {
        case: *case,
        first: &dispatch.first,
        second: &dispatch.second,
        angles,
    };
    if let Some(row) = balance.unbalanced() {
        return Err(Refusal::Unbalanced(row));
    }
    let flows = Flows {
        branches: case.branches,
        count: case.nl,
        angles,
    };
    if let Some(row) = flows.overloaded() {
        return Err(Refusal::Overloaded(row));
    }
    if let Some(row) = flows.overstretched() {
        return Err(Refusal::Overstretched(row));
    }
    Ok(cost)
}
