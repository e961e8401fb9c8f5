// The records of a lawful case, one after another.
ghost use Rattle.std.specs.Prelude.{[]};
ghost use Rattle.case_paper.specs.Case.{CaseForm};
ghost use Rattle.case_tables.specs.Held.{Holds, CountedCase};

use crate::record::RecordWords;
use crate::rows::CaseRows;
use case_paper::sort::Sort;

// Keeps the rows of all records. The head has six words, and the end word comes last. Where the rows stand is lent, not answered: they would be copied.
pub(crate) fn read_rows(words: &[u32], rows: &mut CaseRows)
    requires counted { CountedCase words.now }
    requires empty { Holds rows.old [] }
    ensures { (c : CaseForm words.now) → Holds rows.new c.records }
{
    let mut records = &words[6..words.len() - 1];
    while let [first, rest @ ..] = records {
        let sort = Sort::of(*first);
        let (amounts, later) = rest.split_at(sort.amount_count());
        rows.push(&RecordWords {
            sort,
            first: *first,
            amounts,
        });
        records = later;
    }
}
