// A day on a panel, for every two kinds of machine.
ghost use Rattle.std.specs.Prelude.{◌≡◌, IfErr, IfOk};
ghost use Rattle.build.specs.Build.{room_of};
ghost use Rattle.build.specs.Offer.{Refused};
ghost use Rattle.sheet.specs.Lines.{sheet_bytes};
ghost use Rattle.panel.specs.Opening.{lent_in};
ghost use Rattle.client.specs.Day.{DayRun};

use build::tables::Rows;
use machine::machine::Machine;
use panel::panel::Panel;
use panel::reading::Reading;
use panel::refusal::ReadOutRefusal;
use panel::refused::RowsRefused;
use panel::tables::Tables;
use panel::watch::Idle;
use sheet::sheet::Sheet;
use word::fault::WordFault;

// The papers of the day: a dispatch, a price list, and a hand-over to the next attendant.
#[derive(Clone, Copy)]
pub struct Papers<'w> {
    pub dispatch: &'w [u32],
    pub prices: &'w [u32],
    pub next: &'w [u32],
}

// What was read off the panel, the sheets, and the panel at the end of the day.
#[derive(Drop)]
pub struct DayEnd<'a, M, N> {
    pub reading: Reading,
    pub read_out: Result<usize, ReadOutRefusal>,
    pub handed_over: Result<Sheet, WordFault>,
    pub last: Sheet,
    pub panel: Panel<'a, M, N, Idle>,
}

// The attendant who mans the panel.
const FIRST_ATTENDANT: u16 = 5;

// Opens a panel on the rows and mans it, offers the dispatch and the price list, reads, reads out into the list, hands over, and stands down. The sheets
// are written on the page, where the last one stays.
pub fn day<'a, 'r: 'a, M: Machine, N: Machine>(
    rows: &Rows<'r, M, N>,
    tables: &'a mut Tables,
    papers: &Papers,
    list: &mut [u32],
    page: &mut [u8; 256],
) -> Result<DayEnd<'a, M, N>, RowsRefused<'a>>
    ensures day { IfOk result (λ d. DayRun M.meaning N.meaning rows.now tables.old papers.now list.old list.new d) }
    ensures page { IfOk result (λ d. page.new ≡ sheet_bytes d.last) }
    ensures refused { IfErr result (λ e. Refused M.meaning N.meaning rows.now (room_of (lent_in tables.old)) e.refusal) }
    ensures given_back { IfErr result (λ e. (e.tables.now ≡ tables.old) × (list.new ≡ list.old) × (page.new ≡ page.old)) }
{
    let panel = Panel::from_rows(rows, tables)?;
    let mut panel = panel.man(FIRST_ATTENDANT);
    let _ = panel.offer_dispatch(papers.dispatch);
    let _ = panel.offer_prices(papers.prices);
    let reading = panel.read();
    let read_out = panel.read_out(list);
    let handed_over = panel.hand_over(papers.next, page);
    let (last, panel) = panel.stand_down(page);
    Ok(DayEnd {
        reading,
        read_out,
        handed_over,
        last,
        panel,
    })
}
