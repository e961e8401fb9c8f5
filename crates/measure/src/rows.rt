// The first rows of a table: the sum of what each gives, and the lowest that breaks a limit. By their numbers, not over a slice, since what a row
// gives stands in several columns, and in 8 bits, so that a sum asks only how large each is.
ghost use Rattle.std.specs.Prelude.{◌≡◌, ℕ, ◌<◌, ℤ};
ghost use Rattle.measure.specs.Range.{Within};
ghost use Rattle.measure.specs.Rows.{IsSumOf, IsFirstOf};

// The sum of what the first rows give, each so small that the sum fits.
pub fn sum<F: Fn(usize) -> i64>(count: u8, value: F) -> i64
    requires called { (i : ℕ) → i < count → F.pre value i }
    requires small { (i : ℕ) (z : ℤ) → i < count → F.post value i z → Within 36000000000000000 z }
    ensures { IsSumOf (F.post value) count result }
{
    let mut sum = 0;
    // Added row by row, not in a chain: a signed sum has its bound at each step.
    for row in 0..usize::from(count) {
        sum += value(row);
    }
    sum
}

// The lowest of the first rows that breaks the limit, or none.
pub fn first_broken<F: Fn(usize) -> bool>(count: u8, is_broken: F) -> Option<usize>
    requires { (i : ℕ) → i < count → F.pre is_broken i }
    ensures { IsFirstOf (F.post is_broken) count result }
{
    // A loop, in which each row is known to be below the count, as the closure asks.
    for row in 0..usize::from(count) {
        if is_broken(row) {
            return Some(row);
        }
    }
    None
}
