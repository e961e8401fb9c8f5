// Sums over a group of machines of one kind, whatever the kind. Each machine's power or price stands in its row of a column.
ghost use Rattle.std.specs.Prelude.{◌≡◌, ◌≤◌, length, MatchResult};
ghost use Rattle.machine.specs.Group.{Counted, NotAllowedAt, Priced, total_margins};

use crate::machine::Machine;
use measure::Grains;
use measure::column::Column;
use measure::measured::{PowerColumn, PriceColumn};

// The sum of the machines' costs, each at its power; or the row of a machine that does not allow its power.
pub fn total_cost<M: Machine, C: Column>(
    machines: &[M],
    powers: &PowerColumn<C>,
) -> Result<Grains, usize>
    requires few { length machines.now ≤ 255 }
    ensures { MatchResult result (λ t. Counted M.meaning machines.now (C.value powers.now.column) t.0) (λ i. NotAllowedAt M.meaning machines.now (C.value powers.now.column) i) }
{
    let mut total = 0;
    // Machine by machine, not in a chain: a signed sum has its bound at each step.
    for (i, machine) in machines.iter().enumerate() {
        let cost = machine.cost(powers.at(i)).ok_or(i)?;
        total += cost.0;
    }
    Ok(Grains(total))
}

// The sum of the machines' margins, each at its price.
pub fn total_margin<M: Machine, C: Column>(machines: &[M], prices: &PriceColumn<C>) -> Grains
    requires few { length machines.now ≤ 255 }
    requires priced { Priced machines.now (C.value prices.now.column) }
    ensures { result.0 ≡ total_margins M.meaning machines.now (C.value prices.now.column) }
{
    let mut total = 0;
    // Machine by machine, as above.
    for (i, machine) in machines.iter().enumerate() {
        let price = prices.at(i).unwrap();
        total += machine.margin(price).0;
    }
    Grains(total)
}
