// What stands on a dispatch panel after any run of calls, for any network.
#![tactic(auto)]

ghost use Rattle.standing.specs.Model.{Model, Grounds};
ghost use Rattle.standing.specs.Standing.{Stands};
ghost use Rattle.standing.specs.Example.{one_bus, calls, sheets, panel, ExampleRun, NoOtherRun};
ghost use Rattle.standing.specs.Theorems.{StandingTheorem, PinningTheorem, SameCallsTheorem, RefusalsAlterNothing, ReofferedTheorem};
ghost use Rattle.standing.specs.ExampleGrounds.{one_bus_grounds};

// A network, as a panel needs it.
pub trait Network {
    ghost model: { Model };

    ghost grounds: { Grounds model };
}

// After any run of calls on a panel of any network, the standing holds.
pub fn standing_stands<N: Network>()
    ensures { StandingTheorem N.model }
{}

// What stands leaves no choice: from one case, the same calls lead to the same panel, and write the same sheets.
pub fn standing_pins<N: Network>()
    ensures what_stands { PinningTheorem N.model }
    ensures same_calls { SameCallsTheorem N.model }
{}

// A refusal raises the count of what was declined and alters nothing else; what meets a full watch, and a question, alter nothing.
pub fn refusals_alter_nothing<N: Network>()
    ensures { RefusalsAlterNothing N.model }
{}

// The shown dispatch, offered again to the same panel, is passed where the watch is not full.
pub fn reoffered_passes<N: Network>()
    ensures { ReofferedTheorem N.model }
{}

// A network of one bus has grounds, and a run by hand on its panel comes under every heading.
pub fn example_runs()
    ensures grounds { Grounds one_bus }
    ensures run { ExampleRun }
{}

// The network of that run.
pub struct OneBus;

impl Network for OneBus {
    ghost model = { one_bus };

    ghost grounds = { one_bus_grounds };
}

// What stands after that run, by the theorems about runs of any network; and its calls lead to no other panel and write no other sheets.
pub fn example_stands()
    ensures stands { Stands one_bus 5 calls sheets panel }
    ensures no_other { NoOtherRun }
{
    standing_stands::<OneBus>();
    standing_pins::<OneBus>();
}
