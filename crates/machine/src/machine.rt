// What is known of a machine of any kind: four questions, and what their answers mean.
ghost use Rattle.std.specs.Prelude.{◌≡◌, Decides, MatchOption};
ghost use Rattle.measure.specs.Fraction.{whole};
ghost use Rattle.machine.specs.Meaning.{Meaning, Keeps};

use measure::price::Price;
use measure::{Grains, Watts};

pub trait Machine {
    // what a machine of this kind means
    ghost meaning: { Meaning Self };

    // Its bus, by name.
    fn bus(&self) -> u32
        ensures { result ≡ meaning.bus self.now };

    // Whether it may run at p.
    fn allows(&self, p: Watts) -> bool
        ensures { Decides result (meaning.Allowed self.now (whole p.0)) };

    // Its cost at p, or none where p is not allowed.
    fn cost(&self, p: Watts) -> Option<Grains>
        ensures { MatchOption result (meaning.Allowed self.now (whole p.0) → ⊥) (λ g. meaning.Allowed self.now (whole p.0) × (g.0 ≡ meaning.cost_answer self.now p.0)) };

    // Its margin at q.
    fn margin(&self, q: Price) -> Grains
        ensures { result.0 ≡ meaning.margin self.now q.value };

    // What each kind must prove of it.
    ghost lawful: { Keeps meaning };
}
