// Tests of ranges.
ghost use Rattle.std.specs.Prelude.{◌≡◌, not, pos, neg_ℤ};
ghost use Rattle.measure.specs.Range.{between, kept};
ghost use Rattle.measure.specs.Rows.{only};

// Whether low ≤ z ≤ high, by the test of which the definitions of limits are made.
pub fn is_between(low: i64, high: i64, z: i64) -> bool
    ensures { result ≡ between low high z }
{
    (low..=high).contains(&z)
}

// Whether z lies outside ±limit. A limit of 32 bits, so that its opposite fits; one that needs more is tested by `is_between`.
pub fn is_beyond(limit: u32, z: i64) -> bool
    ensures { result ≡ not (between (neg_ℤ (pos limit)) (pos limit) z) }
{
    let limit = i64::from(limit);
    !is_between(-limit, limit, z)
}

// z where low ≤ z ≤ high, else 0.
pub fn keep(low: i64, high: i64, z: i64) -> i64
    ensures { result ≡ kept low high z }
{
    if is_between(low, high, z) { z } else { 0 }
}

// z where the test passes, else 0.
pub fn only_if(test: bool, z: i64) -> i64
    ensures { result ≡ only test z }
{
    if test { z } else { 0 }
}
