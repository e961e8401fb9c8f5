// Changes of the case.
ghost use Rattle.std.specs.Prelude.{◌≡◌, false};
ghost use Rattle.measure.specs.Rows.{HoldsAt, Lowest};
ghost use Rattle.names.specs.Names.{HasName};
ghost use Rattle.standing.specs.Panel.{is_full, total, with_case};
ghost use Rattle.standing.specs.Panel.Heading.{CHANGES};
ghost use Rattle.panel.specs.Watch.{counts_of};
ghost use Rattle.panel.specs.View.{case_on, sized_case, manned};
ghost use Rattle.panel_model.specs.Says.{SaysDemand, SaysMark};
ghost use Rattle.panel.specs.Calls.{Counted, DemandOffered, MarkOffered};
ghost use Rattle.panel.specs.Standing.{ChangeStep};
ghost use Rattle.panel.specs.Tables.{SameTables};

use crate::panel::Panel;
use crate::refusal::{OfferRefusal, PaperRefusal};
use crate::watch::{Heading, Watch};
use machine::machine::Machine;
use names::branch::BranchName;
use names::list::NameList;
use network::case::first_rows;
use network::refusal::Refusal;
use paper::change::{read_demand_change, read_mark_change};

impl<'a, M, N, S> Panel<'a, M, N, S> {
    // The lowest row of a bus with the name, or none.
    fn bus_row(&self, name: u32) -> Option<usize>
        ensures { Lowest (HoldsAt (HasName ◌≡◌ (λ b. b.name) name) (case_on self.now).buses) result }
    {
        let rows = first_rows(self.buses, self.nb);
        NameList { rows }.find(&name)
    }

    // The lowest row of a branch with the name, or none.
    fn branch_row(&self, name: BranchName) -> Option<usize>
        ensures { Lowest (HoldsAt (HasName ◌≡◌ (λ b. b.name) name) (case_on self.now).branches) result }
    {
        let rows = first_rows(self.branches, self.nl);
        NameList { rows }.find(&name)
    }
}

impl<'a, M: Machine, N: Machine> Panel<'a, M, N, Watch> {
    // Counts a change that stands in the tables, after which nothing is shown.
    fn count_change(&mut self)
        requires { is_full (total (counts_of self.old.state.counts)) ≡ false }
        ensures counted { Counted M.meaning N.meaning (manned M.meaning N.meaning self.old) CHANGES (with_case (sized_case self.old) (manned M.meaning N.meaning self.old)) (manned M.meaning N.meaning self.new) }
        ensures tables { SameTables self.old self.new }
    {
        self.cost = None;
        self.floor = None;
        self.state.counts.raise(Heading::Changes);
    }

    // Takes the words as a change of a demand, after which nothing is shown.
    pub fn change_demand(&mut self, words: &[u32]) -> Result<(), OfferRefusal>
        ensures exact { DemandOffered M.meaning N.meaning words.now (manned M.meaning N.meaning self.old) (manned M.meaning N.meaning self.new) result }
        ensures step { ChangeStep M.meaning N.meaning SaysDemand words.now (manned M.meaning N.meaning self.old) (manned M.meaning N.meaning self.new) }
        ensures tables { SameTables self.old self.new }
    {
        self.state.counts.check_room()?;
        let change = match read_demand_change(words) {
            Ok(change) => change,
            Err(fault) => return Err(self.decline(PaperRefusal::Words(fault))),
        };
        let Some(row) = self.bus_row(change.bus) else {
            return Err(self.decline(PaperRefusal::Case(Refusal::NotInCase)));
        };
        self.buses[row].demand = change.demand;
        self.count_change();
        Ok(())
    }

    // Takes the words as a change of a service mark, after which nothing is shown.
    pub fn change_mark(&mut self, words: &[u32]) -> Result<(), OfferRefusal>
        ensures exact { MarkOffered M.meaning N.meaning words.now (manned M.meaning N.meaning self.old) (manned M.meaning N.meaning self.new) result }
        ensures step { ChangeStep M.meaning N.meaning SaysMark words.now (manned M.meaning N.meaning self.old) (manned M.meaning N.meaning self.new) }
        ensures tables { SameTables self.old self.new }
    {
        self.state.counts.check_room()?;
        let change = match read_mark_change(words) {
            Ok(change) => change,
            Err(fault) => return Err(self.decline(PaperRefusal::Words(fault))),
        };
        let Some(row) = self.branch_row(change.branch) else {
            return Err(self.decline(PaperRefusal::Case(Refusal::NotInCase)));
        };
        self.branches[row].service = change.in_service;
        self.count_change();
        Ok(())
    }
}
