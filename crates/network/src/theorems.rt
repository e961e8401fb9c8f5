// What holds of the model for every two kinds of machine.
ghost use Rattle.network.specs.Theorems.{FloorTheorem, CountedTheorem, NodalTheorem};

use machine::machine::Machine;

// The floor of every lawful price list is at most the true cost of every dispatch in fractions that meets the case.
pub fn floor_stands<M: Machine, N: Machine>()
    ensures { FloorTheorem M.meaning N.meaning }
{}

// A whole dispatch that meets the case truly costs at most what it is counted at.
pub fn counted_covers<M: Machine, N: Machine>()
    ensures { CountedTheorem M.meaning N.meaning }
{}

// The balance at each bus is the nodal equation of the DC model.
pub fn balance_is_nodal<M: Machine, N: Machine>()
    ensures { NodalTheorem M N }
{}
