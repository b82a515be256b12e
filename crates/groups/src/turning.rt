// A stone turned by a line, with its perspective made anew.
ghost use Rattle.std.specs.Prelude.{◌≡◌};
ghost use Rattle.points.specs.Range.{Near};
ghost use Rattle.corners.specs.Scores.{Direction};
ghost use Rattle.groups.specs.Side.{side_of};
ghost use Rattle.groups.specs.Group.{Framed};
ghost use Rattle.groups.specs.Turn.{meaning, turn, lefter, turned_by, with_sight, rotated_of};

use crate::sides::side_of;
use capstones::CapStone;
use geometry::{Perspective, Sight};
use points::Point;

// The corners turned left.
fn turn(s: CapStone) -> CapStone
    ensures { result ≡ turn s }
{
    CapStone {
        corner0: s.corner1,
        corner1: s.corner2,
        corner2: s.corner3,
        corner3: s.corner0,
        ..s
    }
}

// t instead of s, where its corner 0 lies farther to the left: of equals the first stays.
fn lefter(s: CapStone, t: CapStone, h0: Point, hd: Point) -> CapStone
    requires fact_1 { Framed s }
    requires fact_2 { Framed t }
    requires fact_3 { Near h0 }
    requires fact_4 { Direction hd }
    ensures { result ≡ lefter (side_of h0 hd) s t }
{
    if side_of(h0, hd, t.corner0) < side_of(h0, hd, s.corner0) {
        return t;
    }
    s
}

// Of the stone and its three turns, the first whose corner 0 lies farthest to the left.
fn turned_by(stone: CapStone, h0: Point, hd: Point) -> CapStone
    requires fact_1 { Framed stone }
    requires fact_2 { Near h0 }
    requires fact_3 { Direction hd }
    ensures { result ≡ turned_by (side_of h0 hd) stone }
{
    let once = turn(stone);
    let twice = turn(once);
    let of_two = lefter(stone, once, h0, hd);
    let of_three = lefter(of_two, twice, h0, hd);
    lefter(of_three, turn(twice), h0, hd)
}

// The stone with another perspective.
fn with_sight(s: CapStone, c: Perspective) -> CapStone
    ensures { result ≡ with_sight s c }
{
    CapStone { c, ..s }
}

// The stone turned by the line through h0 in the direction hd, seven by seven; none where its corners are flat then (15).
pub fn rotate_capstone(stone: CapStone, h0: Point, hd: Point) -> Option<CapStone>
    requires fact_1 { Framed stone }
    requires fact_2 { Near h0 }
    requires fact_3 { Direction hd }
    ensures { meaning result ≡ rotated_of stone h0 hd }
{
    let s = turned_by(stone, h0, hd);
    match Perspective::create(s.corner0, s.corner1, s.corner2, s.corner3, 7.0, 7.0) {
        Sight::Made(c) => Some(with_sight(s, c)),
        Sight::Flat => None,
    }
}
