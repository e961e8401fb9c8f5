// What a panel shows.
ghost use Rattle.std.specs.Prelude.{◌≡◌, ℕ, ◌<ℤ◌, length, Decides};
ghost use Rattle.standing.specs.Step.{Improves};
ghost use Rattle.paper.specs.Dispatch.{Dispatch as Paper};
ghost use Rattle.panel.specs.View.{amount};
ghost use Rattle.panel.specs.Copied.{Given};
ghost use Rattle.panel.specs.Judged.{GivesDispatch};

use measure::Grains;
use measure::column::Column;
use network::dispatch::Dispatch;
use word::column::WordColumn;

// Writes the column's numbers in the rows of the table.
fn copy_rows<C: Column>(column: &C, table: &mut [i64])
    ensures length { length table.new ≡ length table.old }
    ensures rows { Given (C.value column.now) table.new }
{
    for i in 0..table.len() {
        table[i] = column.at(i);
    }
}

// Writes the dispatch, with so many powers in the first group, in the tables.
pub(crate) fn copy_dispatch(
    dispatch: &Dispatch<WordColumn>,
    first: usize,
    powers: &mut [i64],
    angles: &mut [i64],
)
    ensures { (p : Paper) → length p.powers ≡ length powers.old → length p.angles ≡ length angles.old → GivesDispatch first p dispatch.now → (powers.new ≡ p.powers) × (angles.new ≡ p.angles) }
{
    let split = first.min(powers.len());
    let (first, second) = powers.split_at_mut(split);
    copy_rows(&dispatch.first.column, first);
    copy_rows(&dispatch.second.column, second);
    copy_rows(&dispatch.angles.column, angles);
}

// Whether the cost is lower than the one that is shown, or none is.
pub(crate) fn is_cheaper(cost: Grains, shown: Option<Grains>) -> bool
    ensures { Decides result (Improves (λ a b. a <ℤ b) cost.0 (amount shown)) }
{
    match shown {
        Some(shown) => cost.0 < shown.0,
        None => true,
    }
}

// Whether the floor is higher than the one that is shown, or none is.
pub(crate) fn is_higher(floor: Grains, shown: Option<Grains>) -> bool
    ensures { Decides result (Improves (λ a b. b <ℤ a) floor.0 (amount shown)) }
{
    match shown {
        Some(shown) => shown.0 < floor.0,
        None => true,
    }
}
