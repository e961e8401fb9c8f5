// Laws of words.
ghost use Rattle.word.specs.Laws.{WordRoundTrip, RunsExact};

// What is written as a word reads back the same, and every word is written by what is read from it.
#[tactic(auto, using(crate::proofs::Words::word_round_trip))]
pub fn round_trip()
    ensures { WordRoundTrip }
{}

// Words that fit a paper of fixed length are not refused, and others are so for one reason at one place.
#[tactic(auto, using(crate::proofs::Exacts::exact, crate::proofs::Slots::slots_ended))]
pub fn runs_exact()
    ensures { RunsExact }
{}
