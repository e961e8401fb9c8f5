// Why a panel refuses what is asked of it.
ghost use Rattle.std.specs.Prelude.{◌≡◌};
ghost use Rattle.panel.specs.Refusals.{paper_number, paper_place, offer_number, offer_place, read_out_number, read_out_place};
ghost use Rattle.panel.specs.declared.refusal.PaperRefusal.TheVariants.{Words, Case};
ghost use Rattle.panel.specs.declared.refusal.ReadOutRefusal.TheVariants.{List};

use case_paper::shown::Shown;
use network::refusal::Refusal;
use paper::write::WriteRefusal;
use word::fault::WordFault;

// Why a paper is refused.
#[derive(Clone, Copy, PartialEq, Eq, Debug)]
pub enum PaperRefusal {
    // a fault of form
    Words(WordFault),
    // the case does not bear out what the paper says
    Case(Refusal),
}

// Why an offer or a change is refused.
#[derive(Clone, Copy, PartialEq, Eq, Debug)]
pub enum OfferRefusal {
    // the watch is full, and no word was read
    Full,
    // its paper is refused
    Paper(PaperRefusal),
}

// Why no dispatch is read out.
#[derive(Clone, Copy, PartialEq, Eq, Debug)]
pub enum ReadOutRefusal {
    // none is shown
    NoneShown,
    // the list does not take it
    List(WriteRefusal),
}

impl From<WordFault> for PaperRefusal {
    ghost from_gives = { λ f r. r ≡ Words f };

    fn from(fault: WordFault) -> PaperRefusal {
        PaperRefusal::Words(fault)
    }
}

impl From<Refusal> for PaperRefusal {
    ghost from_gives = { λ e r. r ≡ Case e };

    fn from(refusal: Refusal) -> PaperRefusal {
        PaperRefusal::Case(refusal)
    }
}

impl From<WriteRefusal> for ReadOutRefusal {
    ghost from_gives = { λ e r. r ≡ List e };

    fn from(refusal: WriteRefusal) -> ReadOutRefusal {
        ReadOutRefusal::List(refusal)
    }
}

impl From<PaperRefusal> for Shown {
    ghost from_gives = { λ e s. s ≡ record { number = paper_number e; place = paper_place e } };

    fn from(refusal: PaperRefusal) -> Shown {
        match refusal {
            PaperRefusal::Words(fault) => Shown::from(fault),
            PaperRefusal::Case(refusal) => Shown::from(refusal),
        }
    }
}

impl From<OfferRefusal> for Shown {
    ghost from_gives = { λ e s. s ≡ record { number = offer_number e; place = offer_place e } };

    fn from(refusal: OfferRefusal) -> Shown {
        match refusal {
            OfferRefusal::Full => Shown {
                number: 1,
                place: 0,
            },
            OfferRefusal::Paper(refusal) => Shown::from(refusal),
        }
    }
}

impl From<ReadOutRefusal> for Shown {
    ghost from_gives = { λ e s. s ≡ record { number = read_out_number e; place = read_out_place e } };

    fn from(refusal: ReadOutRefusal) -> Shown {
        match refusal {
            ReadOutRefusal::NoneShown => Shown {
                number: 17,
                place: 0,
            },
            ReadOutRefusal::List(refusal) => Shown {
                number: refusal.number(),
                place: refusal.place(),
            },
        }
    }
}
