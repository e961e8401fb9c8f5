// Papers judged by the case as it stands.
ghost use Rattle.std.specs.Prelude.{MatchResult};
ghost use Rattle.panel.specs.Judged.{JudgedDispatch, DispatchRefused, JudgedPrices, PricesRefused};

use crate::panel::Panel;
use crate::refusal::PaperRefusal;
use judging::judge::judge;
use machine::machine::Machine;
use measure::Grains;
use network::dispatch::Dispatch;
use paper::dispatch::read_dispatch;
use paper::prices::read_prices;
use pricing::floor::floor;
use word::column::WordColumn;

// A dispatch that meets the case, as it stands in its words, and its counted cost.
#[derive(Drop)]
pub(crate) struct Judged<'w> {
    pub(crate) dispatch: Dispatch<WordColumn<'w>>,
    pub(crate) cost: Grains,
}

impl<'a, M: Machine, N: Machine, S> Panel<'a, M, N, S> {
    // The dispatch that the words say, if it meets the case.
    pub(crate) fn judge<'w>(&self, words: &'w [u32]) -> Result<Judged<'w>, PaperRefusal>
        ensures { MatchResult result (λ d. JudgedDispatch M.meaning N.meaning self.now words.now d) (λ e. DispatchRefused M.meaning N.meaning self.now words.now e) }
    {
        let first = self.first_count();
        let second = self.powers.len() - first;
        let dispatch = read_dispatch(words, first, second, self.angles.len())?;
        let cost = judge(&self.case(), &dispatch)?;
        Ok(Judged { dispatch, cost })
    }

    // The floor of the list that the words say, if it is lawful.
    pub(crate) fn floor_of(&self, words: &[u32]) -> Result<Grains, PaperRefusal>
        ensures { MatchResult result (λ g. JudgedPrices M.meaning N.meaning self.now words.now g) (λ e. PricesRefused M.meaning N.meaning self.now words.now e) }
    {
        let case = self.case();
        let prices = read_prices(words, case.bus_count(), case.branch_count())?;
        Ok(floor(&case, &prices)?)
    }
}
