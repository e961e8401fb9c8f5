// What is read off a panel, idle or manned.
ghost use Rattle.std.specs.Prelude.{◌≡◌};
ghost use Rattle.panel.specs.View.{state_of};
ghost use Rattle.panel.specs.Questions.{Reads, ReadOut};
ghost use Rattle.panel.specs.Standing.{StandsOn, ShownAgainOn};
ghost use Rattle.standing.specs.Call.Call.{ask};
ghost use Rattle.standing.specs.Call.Question.{reading, reading_out};
ghost use Rattle.standing.specs.Step.{Step};

use crate::panel::Panel;
use crate::reading::Reading;
use crate::refusal::ReadOutRefusal;
use crate::watch::Manning;
use machine::machine::Machine;
use paper::write::write_dispatch;
use sheet::gap::Gap;

impl<'a, M: Machine, N: Machine, S: Manning> Panel<'a, M, N, S> {
    // The cost and the floor that are shown, and the gap.
    pub fn read(&self) -> Reading
        ensures exact { Reads M.meaning N.meaning (state_of M.meaning N.meaning S.watch self.now) result }
        ensures step { Step (ask reading) (state_of M.meaning N.meaning S.watch self.now) (state_of M.meaning N.meaning S.watch self.now) }
        ensures standing { StandsOn M.meaning N.meaning (state_of M.meaning N.meaning S.watch self.now) }
    {
        Reading {
            cost: self.cost,
            floor: self.floor,
            gap: Gap::between(self.cost, self.floor),
        }
    }

    // Writes the dispatch that is shown into the list, as a paper, and returns the number of its words; later words stay as they were.
    pub fn read_out(&self, list: &mut [u32]) -> Result<usize, ReadOutRefusal>
        ensures exact { ReadOut M.meaning N.meaning (state_of M.meaning N.meaning S.watch self.now) list.old list.new result }
        ensures step { Step (ask reading_out) (state_of M.meaning N.meaning S.watch self.now) (state_of M.meaning N.meaning S.watch self.now) }
        ensures again { ShownAgainOn M.meaning N.meaning (state_of M.meaning N.meaning S.watch self.now) }
    {
        if self.cost.is_none() {
            return Err(ReadOutRefusal::NoneShown);
        }
        Ok(write_dispatch(self.powers, self.angles, list)?)
    }
}
