// What a paper is answered, and the lines that are printed of it.
ghost use Rattle.std.specs.Prelude.{◌≡◌, ◌++◌, IfOk};
ghost use Rattle.std.specs.Io.{StartsWith};
ghost use Rattle.answer.specs.Printed.{printed};

use crate::line::{append_figure, append_line, append_word};
use case_paper::shown::Shown;
use measure::Grains;
use sheet::sheet::Sheet;
use std::alloc::AllocError;

// What is printed of a paper.
#[derive(Clone, Copy, PartialEq, Eq, Debug)]
pub enum Answer {
    // The case is taken.
    Case,
    // A dispatch or a price list is held: its cost or its floor.
    Held(Grains),
    // A dispatch or a price list is passed over: its cost or its floor.
    Passed(Grains),
    // A change is made.
    Changed,
    // The floor of a trial.
    Trial(Grains),
    // A refusal.
    Refused(Shown),
    // The sheet of a watch.
    Sheet(Sheet),
}

impl Answer {
    // Writes its lines at the end of the text; where memory runs out, a part of them may stand there, and what stood before stays.
    #[tactic(auto, unfolding(sheet::specs::Lines::sheet_lines))]
    pub fn append_to(&self, text: &mut Vec<u8>) -> Result<(), AllocError>
        ensures lines { IfOk result (λ _. text.new.items ≡ text.old.items ++ printed self.now) }
        ensures begins { StartsWith text.new.items text.old.items }
    {
        match self {
            Answer::Case => append_word(text, b"CASE"),
            Answer::Held(cost) => append_line(text, b"HELD", cost.0),
            Answer::Passed(cost) => append_line(text, b"PASSED", cost.0),
            Answer::Changed => append_word(text, b"CHANGED"),
            Answer::Trial(floor) => append_line(text, b"TRIAL", floor.0),
            Answer::Refused(shown) => {
                append_figure(text, b"REFUSED", shown.number)?;
                append_line(text, b"", shown.place)
            }
            Answer::Sheet(sheet) => text.extend_from_slice(sheet.write().text()),
        }
    }
}
