ghost use Rattle.std.specs.Prelude.{◌≡◌};
ghost use Rattle.points.specs.Range.{Within};
ghost use Rattle.corners.specs.Scores.{Direction};
ghost use Rattle.corners.specs.Finders.{all_corners_from, all_corners_see, all_corners_stay};

use crate::finder::Finder;
use crate::places::Best;
use crate::scores::{across, along, line_from};
use points::Point;

// Finds the four corners of a sheared rectangle: the points farthest in the four directions of a line in it.
#[derive(Clone, Copy)]
pub struct AllCornerFinder {
    pub baseline: Point,
    pub ahead: Best,
    pub right: Best,
    pub behind: Best,
    pub left: Best,
}

impl AllCornerFinder {
    pub fn new(initial: Point, corner: Point) -> AllCornerFinder
        requires fact_1 { Within initial }
        requires fact_2 { Within corner }
        ensures { result ≡ all_corners_from initial corner }
    {
        let line = line_from(initial, corner);
        let par = along(line, initial);
        let ort = across(line, initial);
        AllCornerFinder {
            baseline: line,
            ahead: Best {
                place: initial,
                score: par,
            },
            right: Best {
                place: initial,
                score: ort,
            },
            behind: Best {
                place: initial,
                score: -par,
            },
            left: Best {
                place: initial,
                score: -ort,
            },
        }
    }
}

impl Finder for AllCornerFinder {
    ghost sees = { all_corners_see };

    ghost Ready = { λ f. Direction f.baseline };

    ghost stays_ready = { all_corners_stay };

    fn see(self, p: Point) -> AllCornerFinder {
        let baseline = self.baseline;
        let par = along(baseline, p);
        let ort = across(baseline, p);
        let ahead = self.ahead;
        let right = self.right;
        let behind = self.behind;
        let left = self.left;
        AllCornerFinder {
            baseline: baseline,
            ahead: ahead.raised(p, par),
            right: right.raised(p, ort),
            behind: behind.raised(p, -par),
            left: left.raised(p, -ort),
        }
    }
}
