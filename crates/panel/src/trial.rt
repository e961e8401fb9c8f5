// Trials: a floor with one branch out of service.
ghost use Rattle.std.specs.Prelude.{◌≡◌, take, pos};
ghost use Rattle.word.specs.Column.{value_of};
ghost use Rattle.network.specs.View.{group_of};
ghost use Rattle.pricing.specs.Kept.{prices_of};
ghost use Rattle.pricing.specs.Outage.{FlooredWithout};
ghost use Rattle.standing.specs.Call.Call.{ask};
ghost use Rattle.standing.specs.Call.Question.{trial};
ghost use Rattle.standing.specs.Step.{Step};
ghost use Rattle.panel.specs.View.{manned};
ghost use Rattle.panel.specs.Questions.{TrialAnswered};
ghost use Rattle.panel.specs.Tables.{SameTables};

use crate::panel::Panel;
use crate::refusal::PaperRefusal;
use crate::watch::Watch;
use machine::machine::Machine;
use measure::Grains;
use network::branch::Branch;
use network::bus::Bus;
use network::case::Machines;
use network::refusal::Refusal;
use paper::trial::{TrialPaper, read_trial};
use pricing::outage::{Stations, floor_without};

// The floor of the paper's list without its branch. By parts of a case, since the branches are lent apart from the rest.
fn floor_tried<M: Machine, N: Machine>(
    paper: &TrialPaper,
    tolerance: u32,
    first: Machines<M>,
    second: Machines<N>,
    nb: u8,
    buses: &mut [Bus],
    nl: u8,
    branches: &mut [Branch],
) -> Result<Grains, Refusal>
    ensures floored { FlooredWithout M.meaning N.meaning (record { tolerance = pos tolerance; buses = take nb buses.old; first = group_of first.entry; second = group_of second.entry; branches = take nl branches.old }) (prices_of value_of paper.now.list) paper.now.branch result }
    ensures buses { buses.new ≡ buses.old }
    ensures branches { branches.new ≡ branches.old }
{
    let stations = Stations {
        tolerance,
        buses,
        nb,
        first,
        second,
        nl,
    };
    floor_without(stations, branches, paper.branch, &paper.list)
}

impl<'a, M: Machine, N: Machine> Panel<'a, M, N, Watch> {
    // The floor of the list that the words say, with the branch that they name out of service. The branch is back at its mark on every way out.
    pub fn trial(&mut self, words: &[u32]) -> Result<Grains, PaperRefusal>
        ensures exact { TrialAnswered M.meaning N.meaning words.now (manned M.meaning N.meaning self.old) result }
        ensures unchanged { manned M.meaning N.meaning self.new ≡ manned M.meaning N.meaning self.old }
        ensures step { Step (ask trial) (manned M.meaning N.meaning self.old) (manned M.meaning N.meaning self.new) }
        ensures tables { SameTables self.old self.new }
    {
        let case = self.case();
        let paper = read_trial(words, case.bus_count(), case.branch_count())?;
        let (tolerance, nb, nl) = (self.tolerance, self.nb, self.nl);
        let (first, second) = (self.first, self.second);
        let floor = floor_tried(
            &paper,
            tolerance,
            first,
            second,
            nb,
            self.buses,
            nl,
            self.branches,
        )?;
        Ok(floor)
    }
}
