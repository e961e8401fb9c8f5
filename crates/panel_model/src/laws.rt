// What a change does to a case, for every two kinds of machine.
ghost use Rattle.panel_model.specs.Laws.{ChangesTold};

// A change is made exactly if a row has its name; it alters one number of the lowest such row, and nothing else.
pub fn changes_told<M, N>()
    ensures { ChangesTold M N }
{}
