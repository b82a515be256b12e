ghost use Rattle.std.specs.Prelude.{◌≡◌};
ghost use Rattle.points.specs.Range.{Within};
ghost use Rattle.corners.specs.Scores.{Direction};
ghost use Rattle.corners.specs.Finders.{left_most_from, left_most_sees, left_most_stays};

use crate::finder::Finder;
use crate::places::Best;
use crate::scores::left_of;
use points::Point;

// Finds the point that lies farthest to the left of a line.
#[derive(Clone, Copy)]
pub struct LeftMostFinder {
    pub line: Point,
    pub best: Best,
}

impl LeftMostFinder {
    pub fn new(direction: Point, start: Point) -> LeftMostFinder
        requires fact_1 { Direction direction }
        requires fact_2 { Within start }
        ensures { result ≡ left_most_from direction start }
    {
        LeftMostFinder {
            line: direction,
            best: Best {
                place: start,
                score: left_of(direction, start),
            },
        }
    }
}

impl Finder for LeftMostFinder {
    ghost sees = { left_most_sees };

    ghost Ready = { λ f. Direction f.line };

    ghost stays_ready = { left_most_stays };

    fn see(self, p: Point) -> LeftMostFinder {
        let line = self.line;
        let best = self.best;
        LeftMostFinder {
            line: line,
            best: best.raised(p, left_of(line, p)),
        }
    }
}
