// What holds of all papers of fixed length.
ghost use Rattle.paper.specs.Laws.{PapersExact};

// A paper of a form is not refused, and other words are so for one reason at one place.
#[tactic(auto, using(crate::proofs::Exacts::dispatch_exact, crate::proofs::Exacts::prices_exact, crate::proofs::Exacts::demand_exact, crate::proofs::Exacts::mark_exact, crate::proofs::Exacts::trial_exact, crate::proofs::Exacts::hand_over_exact))]
pub fn papers_exact()
    ensures { PapersExact }
{}
