// Laws of the papers of a file.
ghost use Rattle.paper_file.specs.Laws.{PapersCut, CallsTold};

// The papers of a list of words are the one way to cut it after each end word.
pub fn papers_cut()
    ensures { PapersCut }
{}

// A paper goes to the call whose head it begins with, and to the dispatches where it begins with none.
pub fn calls_told()
    ensures { CallsTold }
{}
