// What holds of every panel, for every two kinds of machine.
ghost use Rattle.panel_model.specs.Theorems.{PanelsStand};

use machine::machine::Machine;

// After any run of calls on a new panel of any case, what is shown stands.
pub fn panels_stand<M: Machine, N: Machine>()
    ensures { PanelsStand M.meaning N.meaning }
{}
