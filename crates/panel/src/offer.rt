// Offers of dispatches and of price lists.
ghost use Rattle.std.specs.Prelude.{◌≡◌};
ghost use Rattle.panel.specs.View.{manned};
ghost use Rattle.panel.specs.Calls.{DispatchOffered, PricesOffered};
ghost use Rattle.panel.specs.Standing.{DispatchStep, PricesStep};
ghost use Rattle.panel.specs.Tables.{SameTables, DispatchTables};

use crate::outcome::Outcome;
use crate::panel::Panel;
use crate::refusal::OfferRefusal;
use crate::shown::{copy_dispatch, is_cheaper, is_higher};
use crate::watch::{Heading, Watch};
use machine::machine::Machine;

impl<'a, M: Machine, N: Machine> Panel<'a, M, N, Watch> {
    // Takes the words as a dispatch: it is shown if it meets the case and is cheaper than the one that is shown, or none is.
    pub fn offer_dispatch(&mut self, words: &[u32]) -> Result<Outcome, OfferRefusal>
        ensures exact { DispatchOffered M.meaning N.meaning words.now (manned M.meaning N.meaning self.old) (manned M.meaning N.meaning self.new) result }
        ensures step { DispatchStep M.meaning N.meaning words.now (manned M.meaning N.meaning self.old) (manned M.meaning N.meaning self.new) }
        ensures tables { DispatchTables self.old self.new result }
    {
        self.state.counts.check_room()?;
        let judged = match self.judge(words) {
            Ok(judged) => judged,
            Err(refusal) => return Err(self.decline(refusal)),
        };
        let cost = judged.cost;
        if !is_cheaper(cost, self.cost) {
            self.state.counts.raise(Heading::Passed);
            return Ok(Outcome::Passed(cost));
        }
        let first = self.first.used().len();
        copy_dispatch(&judged.dispatch, first, self.powers, self.angles);
        self.cost = Some(cost);
        self.state.counts.raise(Heading::Held);
        Ok(Outcome::Held(cost))
    }

    // Takes the words as a price list: its floor is shown if the list is lawful and the floor higher than the one that is shown, or none is.
    pub fn offer_prices(&mut self, words: &[u32]) -> Result<Outcome, OfferRefusal>
        ensures exact { PricesOffered M.meaning N.meaning words.now (manned M.meaning N.meaning self.old) (manned M.meaning N.meaning self.new) result }
        ensures step { PricesStep M.meaning N.meaning words.now (manned M.meaning N.meaning self.old) (manned M.meaning N.meaning self.new) }
        ensures tables { SameTables self.old self.new }
    {
        self.state.counts.check_room()?;
        let floor = match self.floor_of(words) {
            Ok(floor) => floor,
            Err(refusal) => return Err(self.decline(refusal)),
        };
        if !is_higher(floor, self.floor) {
            self.state.counts.raise(Heading::Passed);
            return Ok(Outcome::Passed(floor));
        }
        self.floor = Some(floor);
        self.state.counts.raise(Heading::Held);
        Ok(Outcome::Held(floor))
    }
}
