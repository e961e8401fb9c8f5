// Watches: whether a panel is manned, and what an attendant's watch counts.
ghost use Rattle.std.specs.Prelude.{◌≡◌, Option, None, Some, false, true, IfOk, MatchResult};
ghost use Rattle.standing.specs.Panel.{is_full, raised, total, none_yet};
ghost use Rattle.standing.specs.Panel as standing;
ghost use Rattle.panel.specs.Watch.{counts_of, watch_of, heading_of};
ghost use Rattle.panel.specs.declared.refusal.OfferRefusal.TheVariants.{Full};

use crate::refusal::OfferRefusal;

// Whether a panel is manned.
pub trait Manning {
    // the open watch, if one is
    ghost watch: { Self → Option standing.Watch };
}

// Nobody mans the panel.
#[derive(Drop)]
pub struct Idle;

// How many offers and changes came under each heading.
#[derive(Clone, Copy, PartialEq, Eq, Debug)]
pub struct Counts {
    pub held: u32,
    pub passed: u32,
    pub declined: u32,
    pub changes: u32,
}

// An attendant's watch. It can't be dropped, so a manned panel can't be let go.
pub struct Watch {
    pub(crate) attendant: u16,
    pub(crate) counts: Counts,
}

impl Manning for Idle {
    ghost watch = { λ s. None };
}

impl Manning for Watch {
    ghost watch = { λ w. Some (watch_of w) };
}

// The headings under which offers and changes are counted.
#[derive(Clone, Copy)]
pub(crate) enum Heading {
    Held,
    Passed,
    Declined,
    Changes,
}

// So many offers and changes fill a watch.
const WATCH_LIMIT: u64 = 1_000_000;

impl Counts {
    // Nothing is counted yet.
    pub(crate) const NONE: Counts = Counts {
        held: 0,
        passed: 0,
        declined: 0,
        changes: 0,
    };

    // Refuses a further offer or change where the watch is full.
    pub(crate) fn check_room(&self) -> Result<(), OfferRefusal>
        ensures { MatchResult result (λ _. is_full (total (counts_of self.now)) ≡ false) (λ e. (e ≡ Full) × (is_full (total (counts_of self.now)) ≡ true)) }
    {
        let total = u64::from(self.held)
            + u64::from(self.passed)
            + u64::from(self.declined)
            + u64::from(self.changes);
        if total >= WATCH_LIMIT {
            return Err(OfferRefusal::Full);
        }
        Ok(())
    }

    // Counts one more under the heading.
    pub(crate) fn raise(&mut self, heading: Heading)
        requires { is_full (total (counts_of self.old)) ≡ false }
        ensures { counts_of self.new ≡ raised (heading_of heading) (counts_of self.old) }
    {
        match heading {
            Heading::Held => self.held += 1,
            Heading::Passed => self.passed += 1,
            Heading::Declined => self.declined += 1,
            Heading::Changes => self.changes += 1,
        }
    }
}
