// What holds of all lists of words and all lent tables.
ghost use Rattle.case_tables.specs.Read.{ReadExact};
ghost use Rattle.case_tables.specs.Told.{CaseTold};

// What is read passes every test, what passes them is not refused, and what is refused has one fault.
#[tactic(auto, using(crate::proofs::Exact::read_exact))]
pub fn read_exact()
    ensures { ReadExact }
{}

// A list of words is a lawful case exactly if lawful rows write it; no other rows do, and these are the rows that are read from it.
#[tactic(auto, using(crate::proofs::Telling::case_told))]
pub fn case_told()
    ensures { CaseTold }
{}
