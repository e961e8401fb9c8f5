// Cases that no panel is opened on, with the tables that were lent for them.
use crate::tables::{MachineTables, Tables};
use case_paper::fault::CaseFault;
use network::refusal::Refusal;
use std::fmt;
use std::fmt::{Debug, Formatter};

// Rows that are refused, and the tables that were lent, as they were.
#[derive(Drop)]
pub struct RowsRefused<'a> {
    pub refusal: Refusal,
    pub tables: &'a mut Tables,
}

// The paper of a case that is refused, and the tables that were lent, as they were.
#[derive(Drop)]
pub struct PaperRefused<'m, 'a> {
    pub fault: CaseFault,
    pub machines: &'m mut MachineTables,
    pub tables: &'a mut Tables,
}

// Without the tables, which are long.
impl<'a> Debug for RowsRefused<'a> {
    fn fmt<W: fmt::Write>(&self, f: &mut Formatter<W>) -> fmt::Result {
        f.debug_struct("RowsRefused")
            .field("refusal", &self.refusal)
            .finish_non_exhaustive()
    }
}

// Without the tables, which are long.
impl<'m, 'a> Debug for PaperRefused<'m, 'a> {
    fn fmt<W: fmt::Write>(&self, f: &mut Formatter<W>) -> fmt::Result {
        f.debug_struct("PaperRefused")
            .field("fault", &self.fault)
            .finish_non_exhaustive()
    }
}
