// What becomes of an offer that is not refused.
use measure::Grains;

// The cost of an offered dispatch, or the floor of an offered price list.
#[derive(Clone, Copy, PartialEq, Eq, Debug)]
pub enum Outcome {
    // it is better than what was shown, or nothing was, and is shown
    Held(Grains),
    // it is not, and is passed over
    Passed(Grains),
}
