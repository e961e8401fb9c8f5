// How a refusal is shown, whatever it refuses.
ghost use Rattle.std.specs.Prelude.{◌≡◌};
ghost use Rattle.word.specs.Fault.{refusal_number};
ghost use Rattle.network.specs.Refusals.{number_of, place_of};
ghost use Rattle.case_paper.specs.Fault.{case_number, case_place};

use crate::fault::CaseFault;
use network::refusal::Refusal;
use word::fault::WordFault;

// A refusal's number, and the word or the row where it stands.
#[derive(Clone, Copy, PartialEq, Eq, Debug)]
pub struct Shown {
    pub number: u32,
    pub place: usize,
}

impl From<Refusal> for Shown {
    ghost from_gives = { λ r s. s ≡ record { number = number_of r; place = place_of r } };

    fn from(refusal: Refusal) -> Shown {
        Shown {
            number: u32::from(refusal.number()),
            place: refusal.place(),
        }
    }
}

impl From<WordFault> for Shown {
    ghost from_gives = { λ f s. s ≡ record { number = refusal_number f.refusal; place = f.place } };

    fn from(fault: WordFault) -> Shown {
        Shown {
            number: fault.refusal.number(),
            place: fault.place,
        }
    }
}

impl From<CaseFault> for Shown {
    ghost from_gives = { λ f s. s ≡ record { number = case_number f; place = case_place f } };

    fn from(fault: CaseFault) -> Shown {
        Shown {
            number: fault.number(),
            place: fault.place(),
        }
    }
}
