// The orders inside a record.
ghost use Rattle.std.specs.Prelude.{◌≡◌, ℕ, ◌+◌, ◌-◌, ◌<◌, ◌≤ℤ◌, ◌<ℤ◌, length, Decides};
ghost use Rattle.case_paper.specs.Order.{amount_at, InOrder};
ghost use Rattle.case_paper.specs.Case.{amounts_of};

use crate::sort::Sort;
use word::amount::amount;

// The amounts rise.
fn rises(xs: &[u32]) -> bool
    ensures { Decides result ((k : ℕ) → k + 1 < length xs.now → amount_at xs.now k <ℤ amount_at xs.now (k + 1)) }
{
    xs.is_sorted_by(|x, y| amount(*x) < amount(*y))
}

// They never fall. Beside `rises`, not one with it: each is a line over the library's test.
fn keeps(xs: &[u32]) -> bool
    ensures { Decides result ((k : ℕ) → k + 1 < length xs.now → amount_at xs.now k ≤ℤ amount_at xs.now (k + 1)) }
{
    xs.is_sorted_by(|x, y| amount(*x) <= amount(*y))
}

// A record's limits, points and slopes are in order, by its amounts.
pub fn in_order(sort: Sort, xs: &[u32]) -> bool
    requires { length xs.now ≡ length (amounts_of sort) }
    ensures { Decides result (InOrder sort xs.now) }
{
    match sort {
        Sort::Bus => true,
        Sort::Stepped(n) => stepped_in_order(n, xs),
        Sort::Curved => amount(xs[0]) <= amount(xs[1]),
        Sort::Branch => amount(xs[3]) <= amount(xs[4]),
    }
}

fn stepped_in_order(n: usize, xs: &[u32]) -> bool
    requires { length xs.now ≡ 3 + n + (n - 1) }
    ensures { Decides result (InOrder (Sort.Stepped n) xs.now) }
{
    if amount(xs[0]) > amount(xs[1]) {
        return false;
    }
    let (points, slopes) = xs[3..].split_at(n);
    rises(points) && keeps(slopes)
}
