// What holds of all cases.
ghost use Rattle.case_paper.specs.CaseFault.{CaseExact, OpenWordTold};

// A lawful case is not refused, and what is refused is so by one fault.
#[tactic(auto, using(crate::proofs::Outcomes::case_exact))]
pub fn case_exact()
    ensures { CaseExact }
{}

// No record's first word is 0, so where 0 is told no record is open.
#[tactic(auto, using(crate::proofs::OpenWords::open_word_told))]
pub fn open_word_told()
    ensures { OpenWordTold }
{}
