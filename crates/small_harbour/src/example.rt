// What judging and the floor answer on the small harbour.
ghost use Rattle.small_harbour.specs.Example.{Example};

// Four dispatches and an overload, at two tolerances, four floors, and the floor without the branch.
pub fn small_harbour_stands()
    ensures { Example }
{}
