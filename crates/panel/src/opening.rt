// Panels from tables of rows and from case papers.
ghost use Rattle.std.specs.Prelude.{◌≡◌, IfErr, IfOk, MatchResult};
ghost use Rattle.stepped.specs.Piecewise.{stepped_meaning};
ghost use Rattle.curved.specs.Quadratic.{curved_meaning};
ghost use Rattle.build.specs.Build.{WellFormed, room_of};
ghost use Rattle.build.specs.Offer.{Refused};
ghost use Rattle.case_tables.specs.Read.{Unread};
ghost use Rattle.panel.specs.View.{case_on};
ghost use Rattle.panel.specs.Opening.{Begins, OnTables, PlacesTaken, RowsOpened, PaperOpened, lent_in, tables_in, case_in};

use crate::panel::Panel;
use crate::refused::{PaperRefused, RowsRefused};
use crate::tables::{MachineTables, Tables};
use crate::watch::Idle;
use build::build::lay;
use build::tables::{Counts, Rows};
use case_tables::read::read_case;
use curved::curved::Curved;
use machine::machine::Machine;
use network::case::{Machines, rows_used};
use stepped::stepped::Stepped;

// A new panel of the case that the tables and these machines make. Of the tables of powers and angles it takes a place for each machine, and for each bus
// but the reference, and keeps the rest as it is.
fn opened<'a, M: Machine, N: Machine>(
    tolerance: u32,
    counts: Counts,
    first: &'a [M],
    second: &'a [N],
    tables: &'a mut Tables,
) -> Panel<'a, M, N, Idle>
    requires { WellFormed M.meaning N.meaning (case_in tolerance first.now second.now tables.old counts) }
    ensures case { case_on result ≡ case_in tolerance first.now second.now tables.old counts }
    ensures run { Begins M.meaning N.meaning result }
    ensures tables { OnTables first.now second.now (lent_in tables.old) counts result }
    ensures places { PlacesTaken tables.old result }
{
    let Tables {
        buses,
        first: first_places,
        second: second_places,
        branches,
        powers,
        angles,
    } = tables;
    let first = Machines {
        rows: first,
        places: first_places,
        count: counts.first,
    };
    let second = Machines {
        rows: second,
        places: second_places,
        count: counts.second,
    };
    let power_count = first.used().len() + second.used().len();
    let angle_count = usize::from(rows_used(buses, counts.buses)) - 1;
    let (powers, spare_powers) = powers.split_at_mut(power_count);
    let (angles, spare_angles) = angles.split_at_mut(angle_count);
    Panel {
        tolerance,
        buses,
        nb: counts.buses,
        first,
        second,
        branches,
        nl: counts.branches,
        powers,
        angles,
        spare_powers,
        spare_angles,
        cost: None,
        floor: None,
        state: Idle,
    }
}

impl<'a, M: Machine, N: Machine> Panel<'a, M, N, Idle> {
    // A new panel of the case that the rows offer, laid in the lent tables. The rows have a lifetime of their own: they may be offered again where the
    // tables are lent anew.
    pub fn from_rows<'r: 'a>(
        rows: &Rows<'r, M, N>,
        tables: &'a mut Tables,
    ) -> Result<Panel<'a, M, N, Idle>, RowsRefused<'a>>
        ensures exact { MatchResult result (λ p. RowsOpened M.meaning N.meaning rows.now tables.old p) (λ e. Refused M.meaning N.meaning rows.now (room_of (lent_in tables.old)) e.refusal) }
        ensures given_back { IfErr result (λ e. e.tables.now ≡ tables.old) }
        ensures run { IfOk result (λ p. Begins M.meaning N.meaning p) }
    {
        let laid = match lay(
            rows,
            &mut tables.buses,
            &mut tables.first,
            &mut tables.second,
            &mut tables.branches,
        ) {
            Ok(laid) => laid,
            Err(refusal) => return Err(RowsRefused { refusal, tables }),
        };
        Ok(opened(laid.tolerance, laid.counts, rows.first, rows.second, tables))
    }
}

impl<'a> Panel<'a, Stepped, Curved, Idle> {
    // A new panel of the case that the words of a paper say, read into the lent tables. Two lifetimes: with one for both, neither of them could be lent
    // again while the other is lent.
    pub fn from_paper<'m: 'a>(
        words: &[u32],
        machines: &'m mut MachineTables,
        tables: &'a mut Tables,
    ) -> Result<Panel<'a, Stepped, Curved, Idle>, PaperRefused<'m, 'a>>
        ensures exact { MatchResult result (λ p. PaperOpened words.now (tables_in machines.old tables.old) p) (λ e. Unread words.now (tables_in machines.old tables.old) e.fault) }
        ensures given_back { IfErr result (λ e. (e.machines.now ≡ machines.old) × (e.tables.now ≡ tables.old)) }
        ensures run { IfOk result (λ p. Begins stepped_meaning curved_meaning p) }
        ensures places { IfOk result (λ p. PlacesTaken tables.old p) }
    {
        let read = match read_case(
            words,
            &mut tables.buses,
            &mut machines.stepped,
            &mut tables.first,
            &mut machines.curved,
            &mut tables.second,
            &mut tables.branches,
        ) {
            Ok(read) => read,
            Err(fault) => {
                return Err(PaperRefused {
                    fault,
                    machines,
                    tables,
                });
            }
        };
        Ok(opened(
            read.tolerance,
            read.counts,
            &machines.stepped,
            &machines.curved,
            tables,
        ))
    }
}
