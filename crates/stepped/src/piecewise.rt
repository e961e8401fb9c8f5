// Arithmetic of a cost in straight pieces, within the ranges of a row.
ghost use Rattle.std.specs.Prelude.{◌≡◌, ◌⊎◌, [], ◌∷◌, pos, neg_ℤ, ◌+ℤ◌, ◌-ℤ◌, ◌*ℤ◌, MatchOption};
ghost use Rattle.measure.specs.Range.{Within};
ghost use Rattle.measure.specs.Rows.{All};
ghost use Rattle.stepped.specs.Piecewise.{powers_of, each_between, Carried, Chain, walk, net, least_walk};
ghost use Rattle.stepped.specs.Pieces.{All_within-prop, Chain-prop};

use machine::limits::Power;
use measure::Watts;
use measure::price::Price;
use measure::range::is_between;

// Whether each number lies between low and high.
pub(crate) fn all_between(low: i64, high: i64, xs: &[i64]) -> bool
    ensures { result ≡ each_between low high xs.now }
{
    xs.iter().all(|x| is_between(low, high, *x))
}

// Whether each power lies within the widest limits. Not by the function above: points are powers, slopes plain numbers.
pub(crate) fn are_powers(xs: &[Watts]) -> bool
    ensures { result ≡ each_between (neg_ℤ (pos 100000000)) (pos 100000000) (powers_of xs.now) }
{
    xs.iter()
        .all(|x| is_between(-Watts::LIMIT, Watts::LIMIT, x.0))
}

// A straight line: the cost at the point `from`, and its slope.
#[derive(Clone, Copy)]
pub(crate) struct Line {
    pub cost: i64,
    pub from: Power,
    pub slope: i64,
    pub ghost carried: { Carried cost from.watts },
    pub ghost sloped: { Within 1000000 slope },
}

impl Line {
    // The cost at y.
    fn at(self, y: Power) -> i64
        ensures value { result ≡ self.cost +ℤ self.slope *ℤ (y.watts -ℤ self.from.watts) }
        ensures size { Within 500000000000000 result }
    {
        self.cost + self.slope * (y.watts - self.from.watts)
    }

    // The cost less q y at y.
    fn net_at(self, q: Price, y: Power) -> i64
        ensures { result ≡ net self.cost self.from.watts self.slope q.value y.watts }
    {
        self.at(y) - q.get() * y.watts
    }
}

// A cost that goes along a line, and by the next slope after each point. Points and slopes side by side, as a row holds them: one slice of both
// would have to be copied from it, and a machine has one point more than slopes.
#[derive(Clone, Copy)]
pub(crate) struct Pieces<'a> {
    pub line: Line,
    pub points: &'a [Watts],
    pub slopes: &'a [i64],
    pub ghost ranged: { All (Within 100000000) (powers_of points.now) } by { All_within-prop 100000000 (powers_of points.now) },
    pub ghost sloped: { All (Within 1000000) slopes.now } by { All_within-prop 1000000 slopes.now },
    pub ghost rising: { Chain line.from.watts (powers_of points.now) } by { Chain-prop line.from.watts (powers_of points.now) },
}

impl<'a> Pieces<'a> {
    // The pieces from the next point on, or none where the line is the last. By slice patterns, a form that docs/DECISIONS.md
    // lists.
    fn next(self) -> Option<Pieces<'a>>
        ensures { MatchOption result ((powers_of self.entry.points.now ≡ []) ⊎ (self.entry.slopes.now ≡ [])) (λ n. (n.line.cost ≡ self.entry.line.cost +ℤ self.entry.line.slope *ℤ (n.line.from.watts -ℤ self.entry.line.from.watts)) × (powers_of self.entry.points.now ≡ n.line.from.watts ∷ powers_of n.points.now) × (self.entry.slopes.now ≡ n.line.slope ∷ n.slopes.now)) }
    {
        let [point, points @ ..] = self.points else {
            return None;
        };
        let [slope, slopes @ ..] = self.slopes else {
            return None;
        };
        let from = Power { watts: point.0 };
        let line = Line {
            cost: self.line.at(from),
            from,
            slope: *slope,
        };
        Some(Pieces {
            line,
            points,
            slopes,
        })
    }

    // The cost at y.
    pub(crate) fn at(self, y: Power) -> i64
        ensures { result ≡ walk self.entry.line.cost self.entry.line.from.watts self.entry.line.slope (powers_of self.entry.points.now) self.entry.slopes.now y.watts (pos 1) }
    {
        let Some(next) = self.next() else {
            return self.line.at(y);
        };
        if y.watts <= next.line.from.watts {
            self.line.at(y)
        } else {
            next.at(y)
        }
    }

    // The least of cost - q × power from a to b: at a, at b or at a point between.
    pub(crate) fn least(self, q: Price, a: Power, b: Power) -> i64
        ensures { result ≡ least_walk self.entry.line.cost self.entry.line.from.watts self.entry.line.slope (powers_of self.entry.points.now) self.entry.slopes.now a.watts b.watts q.value }
    {
        let at_a = self.line.net_at(q, a);
        let at_b = self.line.net_at(q, b);
        let Some(next) = self.next() else {
            return at_a.min(at_b);
        };
        let bend = next.line.from;
        if b.watts <= bend.watts {
            at_a.min(at_b)
        } else if bend.watts <= a.watts {
            next.least(q, a, b)
        } else {
            at_a.min(next.least(q, bend, b))
        }
    }
}
