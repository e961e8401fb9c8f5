// The sizes of a case.
ghost use Rattle.std.specs.Prelude.{◌≡◌, pos, MatchResult};
ghost use Rattle.network.specs.declared.refusal.Refusal.TheVariants.{Size};
ghost use Rattle.build.specs.Offer.{SizesKept, Counted};

use crate::tables::{Counts, LaidCase, Room, Rows, Sizes};
use measure::range::is_between;
use network::refusal::Refusal;
use network::size::{BRANCHES, BUSES, MACHINES, TOLERANCE};

// The tolerance, and how many rows of each table the case has; refused where a size or the tolerance is outside its limits, or a lent table is too short.
pub(crate) fn sized<M, N>(rows: &Rows<M, N>, room: &Room) -> Result<LaidCase, Refusal>
    ensures { MatchResult result (λ n. SizesKept rows.now room.now × (pos n.tolerance ≡ rows.now.tolerance.0) × Counted rows.now n.counts) (λ e. (e ≡ Size) × (SizesKept rows.now room.now → ⊥)) }
{
    let Sizes {
        buses,
        first,
        second,
        branches,
    } = rows.sizes();
    let small = is_between(0, TOLERANCE, rows.tolerance.0)
        & (1..=BUSES).contains(&buses)
        & (first <= MACHINES)
        & (second <= MACHINES)
        & (branches <= BRANCHES);
    let fits = (buses <= room.buses)
        & (first <= room.first)
        & (second <= room.second)
        & (branches <= room.branches);
    // The tolerance is within 32 bits by the test and each count within 8: `try_from` would bring an error that never comes.
    if small & fits {
        let counts = Counts {
            buses: buses as u8,
            first: first as u8,
            second: second as u8,
            branches: branches as u8,
        };
        Ok(LaidCase {
            tolerance: rows.tolerance.0 as u32,
            counts,
        })
    } else {
        Err(Refusal::Size)
    }
}
