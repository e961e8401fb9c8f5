// Attendants: manning a panel, handing over, standing down.
ghost use Rattle.std.specs.Prelude.{◌≡◌, IfOk, MatchResult};
ghost use Rattle.sheet.specs.Lines.{sheet_bytes};
ghost use Rattle.standing.specs.Call.Call.{man, stand_down};
ghost use Rattle.standing.specs.Panel.{watched_by};
ghost use Rattle.standing.specs.Step.{Step};
ghost use Rattle.panel.specs.View.{idle, manned, sheet_told};
ghost use Rattle.panel.specs.Questions.{HandedOver, StoodDown};
ghost use Rattle.panel.specs.Standing.{HandOverStep, StandsOn, SheetStandsOn};
ghost use Rattle.panel.specs.Tables.{SameTables};

use crate::panel::Panel;
use crate::watch::{Counts, Idle, Watch};
use machine::machine::Machine;
use paper::hand_over::read_hand_over;
use sheet::sheet::Sheet;
use word::fault::WordFault;

impl<'a, M: Machine, N: Machine> Panel<'a, M, N, Idle> {
    // Opens the watch of an attendant.
    pub fn man(self, attendant: u16) -> Panel<'a, M, N, Watch>
        ensures exact { manned M.meaning N.meaning result ≡ watched_by attendant (idle M.meaning N.meaning self.entry) }
        ensures step { Step (man attendant) (idle M.meaning N.meaning self.entry) (manned M.meaning N.meaning result) }
        ensures tables { SameTables self.entry result }
    {
        let watch = Watch {
            attendant,
            counts: Counts::NONE,
        };
        let (panel, Idle) = self.in_state(watch);
        panel
    }
}

impl<'a, M: Machine, N: Machine> Panel<'a, M, N, Watch> {
    // The sheet of the watch as it stands, which is written on the page.
    fn write_sheet(&self, page: &mut [u8; 256]) -> Sheet
        ensures sheet { result ≡ record { attendant = self.now.state.attendant; held = self.now.state.counts.held; passed = self.now.state.counts.passed; declined = self.now.state.counts.declined; changes = self.now.state.counts.changes; cost = self.now.cost; floor = self.now.floor } }
        ensures page { page.new ≡ sheet_bytes result }
    {
        let counts = self.state.counts;
        let sheet = Sheet {
            attendant: self.state.attendant,
            held: counts.held,
            passed: counts.passed,
            declined: counts.declined,
            changes: counts.changes,
            cost: self.cost,
            floor: self.floor,
        };
        page.copy_from_slice(&sheet.write().bytes);
        sheet
    }

    // Ends the watch, whose sheet is written on the page, and opens that of the attendant whom the words name.
    pub fn hand_over(&mut self, words: &[u32], page: &mut [u8; 256]) -> Result<Sheet, WordFault>
        ensures exact { HandedOver M.meaning N.meaning words.now (manned M.meaning N.meaning self.old) (manned M.meaning N.meaning self.new) result }
        ensures step { HandOverStep M.meaning N.meaning words.now (manned M.meaning N.meaning self.old) (manned M.meaning N.meaning self.new) }
        ensures page { MatchResult result (λ x. page.new ≡ sheet_bytes x) (λ f. page.new ≡ page.old) }
        ensures sheet { IfOk result (λ x. SheetStandsOn M.meaning N.meaning (manned M.meaning N.meaning self.old) (sheet_told x)) }
        ensures standing { StandsOn M.meaning N.meaning (manned M.meaning N.meaning self.new) }
        ensures tables { SameTables self.old self.new }
    {
        let attendant = read_hand_over(words)?;
        let sheet = self.write_sheet(page);
        self.state.attendant = attendant;
        self.state.counts = Counts::NONE;
        Ok(sheet)
    }

    // Ends the watch: its sheet, which is written on the page, and the panel that nobody mans.
    pub fn stand_down(self, page: &mut [u8; 256]) -> (Sheet, Panel<'a, M, N, Idle>)
        ensures exact { StoodDown M.meaning N.meaning (manned M.meaning N.meaning self.entry) (idle M.meaning N.meaning result.1) result.0 }
        ensures step { Step stand_down (manned M.meaning N.meaning self.entry) (idle M.meaning N.meaning result.1) }
        ensures page { page.new ≡ sheet_bytes result.0 }
        ensures sheet { SheetStandsOn M.meaning N.meaning (manned M.meaning N.meaning self.entry) (sheet_told result.0) }
        ensures standing { StandsOn M.meaning N.meaning (idle M.meaning N.meaning result.1) }
        ensures tables { SameTables self.entry result.1 }
    {
        let sheet = self.write_sheet(page);
        let (panel, watch) = self.in_state(Idle);
        let Watch {
            attendant: _,
            counts: _,
        } = watch;
        (sheet, panel)
    }
}
