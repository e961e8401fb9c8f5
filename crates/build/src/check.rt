// The tests of what is offered, in their order. Nothing is written here.
ghost use Rattle.std.specs.Prelude.{◌≡◌, pos, None, MatchResult};
ghost use Rattle.network.specs.declared.refusal.Refusal.TheVariants.{OutOfRange, Crossed, Repeated};
ghost use Rattle.measure.specs.Rows.{HoldsAt, Lowest};
ghost use Rattle.names.specs.Names.{Repeats};
ghost use Rattle.build.specs.Offer.{BranchCrossed, RowRefused, Counted, Accepted, Refused};
ghost use Rattle.build.specs.Build.{PlacesFound};

use crate::places::find_buses;
use crate::rows::{BranchRow, Ranged};
use crate::size::sized;
use crate::tables::{Room, Rows, Tested};
use machine::machine::Machine;
use names::list::NameList;
use names::name::Named;
use network::refusal::Refusal;

// Refuses the lowest row in which a number is outside its range.
fn check_ranges<R: Ranged>(rows: &[R]) -> Result<(), Refusal>
    ensures { MatchResult result (λ _. Lowest (HoldsAt (λ x. R.Ranged.ranged x.item → ⊥) rows.now) None) (λ e. RowRefused OutOfRange (HoldsAt (λ x. R.Ranged.ranged x.item → ⊥) rows.now) e) }
{
    match rows.iter().position(|row| !row.is_in_range()) {
        None => Ok(()),
        Some(row) => Err(Refusal::OutOfRange(row)),
    }
}

// Refuses the lowest branch whose limits are crossed. Each of these tests has its own search and its own refusal; one function of both would take two
// closures, and its clause speak of them.
fn check_limits(rows: &[BranchRow]) -> Result<(), Refusal>
    ensures { MatchResult result (λ _. Lowest (BranchCrossed rows.now) None) (λ e. RowRefused Crossed (BranchCrossed rows.now) e) }
{
    match rows.iter().position(BranchRow::is_crossed) {
        None => Ok(()),
        Some(row) => Err(Refusal::Crossed(row)),
    }
}

// Refuses the lowest row whose name an earlier row has.
fn check_names<R: Named>(rows: &[R]) -> Result<(), Refusal>
    ensures { MatchResult result (λ _. Lowest (Repeats R.Kind.same R.name rows.now) None) (λ e. RowRefused Repeated (Repeats R.Kind.same R.name rows.now) e) }
{
    match (NameList { rows }.repeated()) {
        None => Ok(()),
        Some(row) => Err(Refusal::Repeated(row)),
    }
}

// Every test in its order: the tolerance and the counts of the case and where the buses that it names stand, or the first refusal that applies.
pub fn check<M: Machine, N: Machine>(rows: &Rows<M, N>, room: &Room) -> Result<Tested, Refusal>
    ensures { MatchResult result (λ t. Accepted M.meaning N.meaning rows.now room.now × (pos t.laid.tolerance ≡ rows.now.tolerance.0) × Counted rows.now t.laid.counts × PlacesFound M.meaning N.meaning rows.now t.places) (λ e. Refused M.meaning N.meaning rows.now room.now e) }
{
    check_ranges(rows.buses)?;
    check_ranges(rows.branches)?;
    check_limits(rows.branches)?;
    let laid = sized(rows, room)?;
    check_names(rows.buses)?;
    check_names(rows.branches)?;
    let places = find_buses(rows)?;
    Ok(Tested { laid, places })
}
