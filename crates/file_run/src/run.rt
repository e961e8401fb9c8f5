// The run of a file: a panel of the case that its first paper says, manned for the papers after it.
ghost use Rattle.std.specs.Prelude.{IfOk};
ghost use Rattle.std.specs.Io.{StartsWith};
ghost use Rattle.stepped.specs.Piecewise.{stepped_meaning};
ghost use Rattle.curved.specs.Quadratic.{curved_meaning};
ghost use Rattle.paper_file.specs.Papers.{papers};
ghost use Rattle.panel.specs.Opening.{Begins, tables_in};
ghost use Rattle.panel.specs.View.{sized_case};
ghost use Rattle.file_run.specs.Papers.{Printed};
ghost use Rattle.file_run.specs.Run.{PanelRun, HasRoom, FileAnswered, FileRun};

use crate::papers::answer_papers;
use answer::answer::Answer;
use case_paper::shown::Shown;
use curved::curved::Curved;
use network::size::MACHINES;
use panel::panel::Panel;
use panel::tables::{MachineTables, Tables};
use panel::watch::Idle;
use paper_file::papers::paper_len;
use paper_file::words::words_of;
use std::alloc::{AllocError, Global};
use stepped::stepped::Stepped;

// The attendant who mans the panel of a file.
const FIRST_ATTENDANT: u16 = 1;

// Mans the panel, brings it each paper among the words, and writes what they are answered, and the sheet at the end, at the end of the text.
fn run_panel(
    panel: Panel<Stepped, Curved, Idle>,
    words: &[u32],
    text: &mut Vec<u8>,
) -> Result<(), AllocError>
    requires { Begins stepped_meaning curved_meaning panel }
    ensures printed { IfOk result (λ _. Printed (PanelRun stepped_meaning curved_meaning (sized_case panel.entry) (papers words.now)) text.old.items text.new.items) }
    ensures begins { StartsWith text.new.items text.old.items }
{
    let mut page = [b' '; 256];
    let mut panel = panel.man(FIRST_ATTENDANT);
    let answered = answer_papers(&mut panel, words, &mut page, text);
    // Where memory ran out too: a manned panel can't be let go.
    let (sheet, _) = panel.stand_down(&mut page);
    answered?;
    Answer::Sheet(sheet).append_to(text)
}

// Tables with rows for the largest case, before one is read into them.
fn blank_tables() -> (MachineTables, Tables)
    ensures { HasRoom (tables_in result.0 result.1) }
{
    let machines = MachineTables {
        stepped: [Stepped::default(); MACHINES],
        curved: [Curved::default(); MACHINES],
    };
    (machines, Tables::BLANK)
}

// Reads the first paper among the words as a case and runs a panel of it, and writes what is answered at the end of the text.
fn run_words(words: &[u32], text: &mut Vec<u8>) -> Result<(), AllocError>
    ensures printed { IfOk result (λ _. Printed (FileAnswered (papers words.now)) text.old.items text.new.items) }
    ensures begins { StartsWith text.new.items text.old.items }
{
    let (mut machines, mut tables) = blank_tables();
    let (paper, later) = words.split_at(paper_len(words));
    match Panel::from_paper(paper, &mut machines, &mut tables) {
        Err(refused) => Answer::Refused(Shown::from(refused.fault)).append_to(text),
        Ok(panel) => {
            Answer::Case.append_to(text)?;
            run_panel(panel, later, text)
        }
    }
}

// All that is printed of a file of these bytes.
pub fn run_file(heap: Global, bytes: &[u8]) -> Result<Vec<u8>, AllocError>
    ensures { IfOk result (λ text. FileRun bytes.now text.items) }
{
    let words = words_of(heap, bytes)?;
    let mut text = Vec::new(heap);
    run_words(&words, &mut text)?;
    Ok(text)
}
