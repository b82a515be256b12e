ghost use Rattle.std.specs.Prelude.{◌≡◌};
ghost use Rattle.points.specs.Range.{Within};
ghost use Rattle.corners.specs.Finders.{first_corner_from, first_corner_sees, first_corner_stays};

use crate::finder::Finder;
use crate::places::Best;
use crate::scores::distance;
use points::Point;

// Finds a corner of a sheared rectangle: the point farthest from `initial`.
#[derive(Clone, Copy)]
pub struct FirstCornerFinder {
    pub initial: Point,
    pub best: Best,
}

impl FirstCornerFinder {
    pub fn new(start: Point) -> FirstCornerFinder
        ensures { result ≡ first_corner_from start }
    {
        FirstCornerFinder {
            initial: start,
            best: Best {
                place: Point { x: 0, y: 0 },
                score: -1,
            },
        }
    }
}

impl Finder for FirstCornerFinder {
    ghost sees = { first_corner_sees };

    ghost Ready = { λ f. Within f.initial };

    ghost stays_ready = { first_corner_stays };

    fn see(self, p: Point) -> FirstCornerFinder {
        let initial = self.initial;
        let best = self.best;
        FirstCornerFinder {
            initial: initial,
            best: best.raised(p, distance(initial, p)),
        }
    }
}
