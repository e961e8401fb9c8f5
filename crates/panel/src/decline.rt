// Offers and changes that are declined.
ghost use Rattle.std.specs.Prelude.{◌≡◌, false};
ghost use Rattle.standing.specs.Panel.{is_full, total};
ghost use Rattle.panel.specs.Watch.{counts_of};
ghost use Rattle.panel.specs.View.{manned};
ghost use Rattle.panel.specs.Calls.{CountedDeclined};
ghost use Rattle.panel.specs.Tables.{SameTables};
ghost use Rattle.panel.specs.declared.refusal.OfferRefusal.TheVariants.{Paper};

use crate::panel::Panel;
use crate::refusal::{OfferRefusal, PaperRefusal};
use crate::watch::{Heading, Watch};
use machine::machine::Machine;

impl<'a, M: Machine, N: Machine> Panel<'a, M, N, Watch> {
    // Counts what is declined.
    pub(crate) fn decline(&mut self, refusal: PaperRefusal) -> OfferRefusal
        requires { is_full (total (counts_of self.old.state.counts)) ≡ false }
        ensures refusal { result ≡ Paper refusal }
        ensures counted { CountedDeclined M.meaning N.meaning (manned M.meaning N.meaning self.old) (manned M.meaning N.meaning self.new) }
        ensures tables { SameTables self.old self.new }
    {
        self.state.counts.raise(Heading::Declined);
        OfferRefusal::Paper(refusal)
    }
}
