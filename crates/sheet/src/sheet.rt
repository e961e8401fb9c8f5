// A sheet, and how it is written on a page.
ghost use Rattle.std.specs.Prelude.{◌≡◌};
ghost use Rattle.sheet.specs.Figure.{gap_of};
ghost use Rattle.sheet.specs.Lines.{sheet_lines, sheet_bytes};
ghost use Rattle.sheet.specs.Page.{text_of};
ghost use Rattle.sheet.specs.Reading.{read_sheet, read_gap};

use crate::figure::Figure;
use crate::page::Page;
use measure::Grains;

// An attendant's figures: what was held, passed and declined, how many changes were made, and the cost and the floor
// in grains per hour where they stand.
#[derive(Clone, Copy, PartialEq, Eq, Debug)]
pub struct Sheet {
    pub attendant: u16,
    pub held: u32,
    pub passed: u32,
    pub declined: u32,
    pub changes: u32,
    pub cost: Option<Grains>,
    pub floor: Option<Grains>,
}

impl Sheet {
    // The page with its lines, from which its figures can be read again.
    pub fn write(&self) -> Page
        ensures bytes { result.bytes ≡ sheet_bytes self.now }
        ensures text { text_of result ≡ sheet_lines self.now }
        ensures figures { read_sheet result.bytes ≡ self.now }
        ensures gap { read_gap result.bytes ≡ gap_of self.now.cost self.now.floor }
    {
        let mut page = Page::blank();
        // A call for each line: a table of words and figures to go through would have a line for each too.
        page.push_line(b"WATCH", Figure::from(u32::from(self.attendant)));
        page.push_line(b"HELD", Figure::from(self.held));
        page.push_line(b"PASSED", Figure::from(self.passed));
        page.push_line(b"DECLINED", Figure::from(self.declined));
        page.push_line(b"CHANGES", Figure::from(self.changes));
        page.push_line(b"COST", Figure::from(self.cost));
        page.push_line(b"FLOOR", Figure::from(self.floor));
        page.push_line(b"GAP", Figure::of_gap(self.cost, self.floor));
        page
    }
}
