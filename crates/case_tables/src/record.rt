// One record: the row that its words give.
ghost use Rattle.std.specs.Prelude.{◌≡◌, ◌+◌, ◌-◌, ◌/◌, ◌≤◌, map, length};
ghost use Rattle.word.specs.Word.{payload_of, amount_of};
ghost use Rattle.case_paper.specs.Case.{amounts_of};
ghost use Rattle.case_paper.specs.declared.sort.Sort.TheVariants as sort;
ghost use Rattle.case_tables.specs.Rows.{padded, powered, record_of, bus_row, stepped_row, curved_row, branch_row};

use build::rows::{BranchRow, BusRow};
use case_paper::sort::Sort;
use curved::curved::Curved;
use machine::limits::MOST_POINTS;
use measure::{Microradians, Watts};
use stepped::stepped::Stepped;
use word::amount::amount;
use word::kind::payload;
use word::name::branch_name;

// The amounts of the words, then zeros. By index: of what `iter_mut` lends only the length is known afterwards, and `array::from_fn` tells of its calls
// by the states of its closure.
fn amounts_in<const N: usize>(words: &[u32]) -> [i64; N]
    requires { length words.now ≤ N }
    ensures { result ≡ padded N (map amount_of words.now) }
{
    let mut amounts = [0; N];
    for (i, word) in words.iter().enumerate() {
        amounts[i] = amount(*word);
    }
    amounts
}

// The powers of the words, then zeros.
fn powers_in(words: &[u32]) -> [Watts; MOST_POINTS]
    requires { length words.now ≤ 8 }
    ensures { result ≡ map powered (padded 8 (map amount_of words.now)) }
{
    amounts_in(words).map(Watts)
}

// The words of one record of this sort: its first word, and as many amounts as the sort has.
#[derive(Clone, Copy)]
pub(crate) struct RecordWords<'a> {
    pub(crate) sort: Sort,
    pub(crate) first: u32,
    pub(crate) amounts: &'a [u32],
    ghost long: { length amounts.now ≡ length (amounts_of sort) },
}

impl RecordWords<'_> {
    // A bus: its name and its demand.
    pub(crate) fn bus_row(&self) -> BusRow
        requires { self.now.sort ≡ sort.Bus }
        ensures { result ≡ bus_row (record_of self.now.sort self.now.first self.now.amounts.now) }
    {
        BusRow {
            name: payload(self.first),
            demand: Watts(amount(self.amounts[0])),
        }
    }

    // A machine with n points: its limits, first cost, points and slopes.
    pub(crate) fn stepped_row(&self, n: usize) -> Stepped
        requires sort { self.now.sort ≡ sort.Stepped n }
        requires few { (2 ≤ n) × (n ≤ 8) }
        requires said { payload_of self.now.first / 256 ≡ n }
        ensures { result ≡ stepped_row (record_of self.now.sort self.now.first self.now.amounts.now) }
    {
        let amounts = self.amounts;
        Stepped {
            bus: payload(self.first) % 256,
            lo: Watts(amount(amounts[0])),
            hi: Watts(amount(amounts[1])),
            c: amount(amounts[2]),
            n,
            points: powers_in(&amounts[3..3 + n]),
            slopes: amounts_in(&amounts[3 + n..]),
        }
    }

    // A machine with a quadratic cost: its limits and coefficients.
    pub(crate) fn curved_row(&self) -> Curved
        requires { self.now.sort ≡ sort.Curved }
        ensures { result ≡ curved_row (record_of self.now.sort self.now.first self.now.amounts.now) }
    {
        let amounts = self.amounts;
        Curved {
            bus: payload(self.first),
            lo: Watts(amount(amounts[0])),
            hi: Watts(amount(amounts[1])),
            c0: amount(amounts[2]),
            c1: amount(amounts[3]),
            c2: amount(amounts[4]),
        }
    }

    // A branch, in service if its mark is 1.
    pub(crate) fn branch_row(&self) -> BranchRow
        requires { self.now.sort ≡ sort.Branch }
        ensures { result ≡ branch_row (record_of self.now.sort self.now.first self.now.amounts.now) }
    {
        let amounts = self.amounts;
        BranchRow {
            name: branch_name(self.first),
            susceptance: amount(amounts[0]),
            shift: Microradians(amount(amounts[1])),
            rating: Watts(amount(amounts[2])),
            angmin: Microradians(amount(amounts[3])),
            angmax: Microradians(amount(amounts[4])),
            service: payload(amounts[5]) == 1,
        }
    }
}
