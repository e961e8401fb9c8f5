// A case read into lent tables.
ghost use Rattle.std.specs.Prelude.{◌≡◌, ◌≤◌, length, IfOk};
ghost use Rattle.case_paper.specs.CaseFault.{LawfulCase};
ghost use Rattle.case_tables.specs.Read.{tables, rows_provided, Written, Outcome, OfNames, Reported};
ghost use Rattle.case_tables.specs.Told.{ReadTold};

use crate::rows::CaseRows;
use crate::walk::read_rows;
use build::build::lay;
use build::tables::LaidCase;
use case_paper::case::check_case;
use case_paper::fault::CaseFault;
use curved::curved::Curved;
use measure::Watts;
use network::branch::Branch;
use network::bus::Bus;
use network::refusal::Refusal;
use stepped::stepped::Stepped;
use word::amount::amount;

// How many records of each sort the tables have rows for. Six tables, as `read_case` is lent them.
fn rows_provided(
    buses: &[Bus],
    stepped: &[Stepped],
    first: &[u8],
    curved: &[Curved],
    second: &[u8],
    branches: &[Branch],
) -> [usize; 4]
    ensures { result ≡ rows_provided (tables buses.now stepped.now first.now curved.now second.now branches.now) }
{
    [
        buses.len(),
        stepped.len().min(first.len()),
        curved.len().min(second.len()),
        branches.len(),
    ]
}

// The fault of a case whose rows keep their ranges, orders and sizes. Not a `TryFrom`: of such rows only the names are refused, so it never fails.
fn name_fault(refusal: Refusal) -> CaseFault
    requires { OfNames refusal }
    ensures { Reported refusal result }
{
    match refusal {
        Refusal::Repeated(row) => CaseFault::Repeats(row),
        Refusal::UnknownBus(row) => CaseFault::Lacks(row),
        _ => unreachable(),
    }
}

// Writes the rows into the first places of the table.
fn write_rows<T: Copy>(rows: &[T], table: &mut [T])
    requires { length rows.now ≤ length table.old }
    ensures { Written rows.now table.old table.new }
{
    table[..rows.len()].copy_from_slice(rows);
}

// Lays a lawful case in the lent tables, once all of its rows are read: every name is tested before the first writing. A function of its own, so that
// words that are refused before it pay nothing for the rows that it keeps on the stack.
fn lay_case(
    words: &[u32],
    buses: &mut [Bus],
    stepped: &mut [Stepped],
    first: &mut [u8],
    curved: &mut [Curved],
    second: &mut [u8],
    branches: &mut [Branch],
) -> Result<LaidCase, CaseFault>
    requires { LawfulCase (rows_provided (tables buses.old stepped.old first.old curved.old second.old branches.old)) words.now }
    ensures { Outcome words.now (tables buses.old stepped.old first.old curved.old second.old branches.old) (tables buses.new stepped.new first.new curved.new second.new branches.new) result }
{
    let mut rows = CaseRows::empty();
    read_rows(words, &mut rows);
    let tolerance = amount(words[1]);
    let offer = rows.offer(Watts(tolerance));
    let laid = lay(&offer, buses, first, second, branches).map_err(name_fault)?;
    write_rows(offer.first, stepped);
    write_rows(offer.second, curved);
    Ok(laid)
}

// Reads a case into the lent tables: buses, machines of both kinds with the rows of their buses, and branches. The words are tested to their
// end before a row is read, every name before the first writing, and a refusal leaves every table as it was. Six tables, not a
// struct of them: that has one lifetime, where the tables of a caller may have several.
pub fn read_case(
    words: &[u32],
    buses: &mut [Bus],
    stepped: &mut [Stepped],
    first: &mut [u8],
    curved: &mut [Curved],
    second: &mut [u8],
    branches: &mut [Branch],
) -> Result<LaidCase, CaseFault>
    ensures outcome { Outcome words.now (tables buses.old stepped.old first.old curved.old second.old branches.old) (tables buses.new stepped.new first.new curved.new second.new branches.new) result }
    ensures told { IfOk result (ReadTold words.now (tables buses.old stepped.old first.old curved.old second.old branches.old) (tables buses.new stepped.new first.new curved.new second.new branches.new)) }
{
    let room = rows_provided(buses, stepped, first, curved, second, branches);
    check_case(words, &room)?;
    lay_case(words, buses, stepped, first, curved, second, branches)
}
