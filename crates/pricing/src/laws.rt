// What taking a branch out of service does to a case, for every two kinds of machine.
ghost use Rattle.pricing.specs.Laws.{OutageTold};

// Without a branch, that branch is out of service, and every other number of the case is as before.
pub fn outage_told<M, N>()
    ensures { OutageTold M N }
{}
