// The panel: its case, in lent tables, and what it shows.
ghost use Rattle.std.specs.Prelude.{◌≡◌, min, length, take};
ghost use Rattle.network.specs.View.{case_of};
ghost use Rattle.panel.specs.View.{case_on, sized_case};
ghost use Rattle.panel.specs.Tables.{SameTables};

use measure::Grains;
use network::branch::Branch;
use network::bus::Bus;
use network::case::{Case, Machines};

// A panel for two kinds of machine, idle or manned. Its case stands in lent tables, of which the first rows are the case's. The tables of powers and
// angles have a place for each that a dispatch has, and hold the dispatch that is shown; a cost says that one is. What was lent beyond those places is
// kept as it is.
#[derive(Drop)]
pub struct Panel<'a, M, N, S> {
    pub(crate) tolerance: u32,
    pub(crate) buses: &'a mut [Bus],
    pub(crate) nb: u8,
    pub(crate) first: Machines<'a, M>,
    pub(crate) second: Machines<'a, N>,
    pub(crate) branches: &'a mut [Branch],
    pub(crate) nl: u8,
    pub(crate) powers: &'a mut [i64],
    pub(crate) angles: &'a mut [i64],
    pub(crate) spare_powers: &'a mut [i64],
    pub(crate) spare_angles: &'a mut [i64],
    pub(crate) cost: Option<Grains>,
    pub(crate) floor: Option<Grains>,
    pub(crate) state: S,
}

impl<'a, M, N, S> Panel<'a, M, N, S> {
    // The case as it stands.
    pub(crate) fn case(&self) -> Case<M, N>
        ensures { case_of result ≡ case_on self.now }
    {
        Case {
            tolerance: self.tolerance,
            buses: self.buses,
            nb: self.nb,
            first: self.first,
            second: self.second,
            branches: self.branches,
            nl: self.nl,
        }
    }

    // How many powers of a dispatch are the first group's.
    pub(crate) fn first_count(&self) -> usize
        ensures { result ≡ min (length (case_on self.now).first.machines) (length self.now.powers.now) }
    {
        self.first.used().len().min(self.powers.len())
    }

    // The same panel in another state, and the state that it was in.
    pub(crate) fn in_state<T>(self, state: T) -> (Panel<'a, M, N, T>, S)
        ensures states { (result.0.state ≡ state) × (result.1 ≡ self.entry.state) }
        ensures case { sized_case result.0 ≡ sized_case self.entry }
        ensures shown { (result.0.cost ≡ self.entry.cost) × (result.0.floor ≡ self.entry.floor) }
        ensures tables { SameTables self.entry result.0 }
    {
        let Panel {
            tolerance,
            buses,
            nb,
            first,
            second,
            branches,
            nl,
            powers,
            angles,
            spare_powers,
            spare_angles,
            cost,
            floor,
            state: left,
        } = self;
        let panel = Panel {
            tolerance,
            buses,
            nb,
            first,
            second,
            branches,
            nl,
            powers,
            angles,
            spare_powers,
            spare_angles,
            cost,
            floor,
            state,
        };
        (panel, left)
    }
}
