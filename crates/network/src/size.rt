// How large a case may be.

// The largest tolerance of the balance, in watts.
pub const TOLERANCE: i64 = 100_000;
// The most buses.
pub const BUSES: usize = 100;
// The most machines in one group.
pub const MACHINES: usize = 30;
// The most branches.
pub const BRANCHES: usize = 200;
