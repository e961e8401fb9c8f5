// Change papers: exactly a head, a name, an amount, an end.
ghost use Rattle.std.specs.Prelude.{◌≡◌, ◌≢◌, length, MatchResult};
ghost use Rattle.word.specs.Fault.{RefusedWord};
ghost use Rattle.word.specs.Head.{head_number};
ghost use Rattle.word.specs.Slot.{Fits, Matches, Possible};
ghost use Rattle.paper.specs.Change.{change_slots, change_words, demand_words, LawfulDemand, DemandForm, mark_words, LawfulMark, MarkForm};

use measure::Watts;
use names::branch::BranchName;
use word::amount::amount;
use word::fault::WordFault;
use word::head::Head;
use word::kind::payload;
use word::name::branch_name;
use word::range::{MARK, POWER};
use word::read::admit_all;
use word::run::Run;
use word::slot::Slot;

#[derive(Clone, Copy, PartialEq, Eq, Debug)]
pub struct DemandChange {
    pub bus: u32,
    pub demand: Watts,
}

#[derive(Clone, Copy, PartialEq, Eq, Debug)]
pub struct MarkChange {
    pub branch: BranchName,
    pub in_service: bool,
}

// The fault of words that are not four.
fn length_fault(words: &[u32], head: Head, name: Slot, amount: Slot) -> WordFault
    requires possible { Possible (change_slots (head_number head) name amount) }
    requires other { length words.now ≢ 4 }
    ensures { RefusedWord (Matches (change_slots (head_number head) name amount)) words.now result }
{
    let runs = [
        Run::one(Slot::Head(head.number())),
        Run::one(name),
        Run::one(amount),
        Run::one(Slot::End),
    ];
    match admit_all(words, &runs) {
        Err(fault) => fault,
        Ok(()) => unreachable(),
    }
}

// The words are a head, a name, an amount and an end; returned are the words of the name and the amount.
fn admit_change(
    words: &[u32],
    head: Head,
    name: Slot,
    amount: Slot,
) -> Result<(u32, u32), WordFault>
    requires { Possible (change_slots (head_number head) name amount) }
    ensures { MatchResult result (λ p. Fits name p.0 × Fits amount p.1 × (words.now ≡ change_words (head_number head) p.0 p.1)) (λ f. RefusedWord (Matches (change_slots (head_number head) name amount)) words.now f) }
{
    let [head_word, name_word, amount_word, end_word] = words else {
        return Err(length_fault(words, head, name, amount));
    };
    Slot::Head(head.number()).admit(0, *head_word)?;
    name.admit(1, *name_word)?;
    amount.admit(2, *amount_word)?;
    Slot::End.admit(3, *end_word)?;
    Ok((*name_word, *amount_word))
}

#[tactic(auto, using(crate::proofs::Layouts::possible, crate::proofs::Layouts::refused, crate::proofs::Changes::demand_layout))]
pub fn read_demand_change(words: &[u32]) -> Result<DemandChange, WordFault>
    ensures { MatchResult result (λ v. LawfulDemand v × (words.now ≡ demand_words v)) (λ f. RefusedWord DemandForm words.now f) }
{
    let (bus, demand) = admit_change(words, Head::Demand, Slot::Bus, POWER)?;
    Ok(DemandChange {
        bus: payload(bus),
        demand: Watts(amount(demand)),
    })
}

#[tactic(auto, using(crate::proofs::Layouts::possible, crate::proofs::Layouts::refused, crate::proofs::Changes::mark_layout))]
pub fn read_mark_change(words: &[u32]) -> Result<MarkChange, WordFault>
    ensures { MatchResult result (λ v. LawfulMark v × (words.now ≡ mark_words v)) (λ f. RefusedWord MarkForm words.now f) }
{
    let (branch, mark) = admit_change(words, Head::Mark, Slot::Branch, MARK)?;
    Ok(MarkChange {
        branch: branch_name(branch),
        in_service: amount(mark) == 1,
    })
}
