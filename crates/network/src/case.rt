// A case, as a view of lent tables.
ghost use Rattle.std.specs.Prelude.{◌≡◌, ◌≤◌, length, take, slice_index};

use crate::branch::Branch;
use crate::bus::Bus;

// Machines of one kind: a table, of which the first rows are the case's, and the row of each one's bus.
// Two tables with a count, not one slice of pairs: machines and places are lent apart, each with room for more rows than the case has, and
// a count of 8 bits bounds every sum over the machines with nothing asked of a caller.
#[derive_where(Clone, Copy)]
pub struct Machines<'a, M> {
    pub rows: &'a [M],
    pub places: &'a [u8],
    pub count: u8,
}

impl<'a, M> Machines<'a, M> {
    // The case's machines.
    pub fn used(&self) -> &'a [M]
        ensures exact { result.now ≡ take self.now.count self.now.rows.now }
        ensures few { length result.now ≤ 255 }
    {
        first_rows(self.rows, self.count)
    }

    // The row of the bus of the machine in that row; 0, the reference, where the table of places ends before it.
    pub fn place(&self, row: usize) -> u8
        ensures { result ≡ slice_index self.now.places.now row }
    {
        self.places.get(row).copied().unwrap_or(0)
    }
}

// A case: the tolerance of the balance in watts, buses, machines of two kinds and branches. The first rows of each table are the case's,
// counted in 8 bits for the same reasons.
#[derive_where(Clone, Copy)]
pub struct Case<'a, M, N> {
    pub tolerance: u32,
    pub buses: &'a [Bus],
    pub nb: u8,
    pub first: Machines<'a, M>,
    pub second: Machines<'a, N>,
    pub branches: &'a [Branch],
    pub nl: u8,
}

impl<'a, M, N> Case<'a, M, N> {
    // How many buses it has.
    pub fn bus_count(&self) -> u8
        ensures { result ≡ length (take self.now.nb self.now.buses.now) }
    {
        rows_used(self.buses, self.nb)
    }

    // How many branches it has.
    pub fn branch_count(&self) -> u8
        ensures { result ≡ length (take self.now.nl self.now.branches.now) }
    {
        rows_used(self.branches, self.nl)
    }
}

// How many rows the case has of a table: no more than the count, so that 8 bits hold it.
pub fn rows_used<T>(table: &[T], count: u8) -> u8
    ensures { result ≡ length (take count table.now) }
{
    first_rows(table, count).len() as u8
}

// The rows that the case has of a table.
pub fn first_rows<T>(table: &[T], count: u8) -> &[T]
    ensures { result.now ≡ take count table.now }
{
    table.get(..usize::from(count)).unwrap_or(table)
}
