// A group of stones from a lent slice.
ghost use Rattle.std.specs.Prelude.{◌≡◌, ◌+◌, ◌≤◌, length};
ghost use Rattle.capstones.specs.Blank.{no_stone};
ghost use Rattle.exports_grids.specs.Lent.{stone_at, group_of};

use capstones::{CapStone, blank};
use geometry::Perspective;
use groups::CapStoneGroup;
use told::place::point_at;

// The perspective of a stone that has none of its own yet.
fn no_perspective() -> Perspective
    ensures { result ≡ no_stone.c }
{
    let none = blank();
    none.c
}

// The stone whose corners and centre stand from a place on.
fn stone_at(places: &[i32], at: usize) -> CapStone
    requires { at + 10 ≤ length places.now }
    ensures { result ≡ stone_at places.now at }
{
    let c = no_perspective();
    let p0 = point_at(places, at, at + 1);
    let p1 = point_at(places, at + 2, at + 3);
    let p2 = point_at(places, at + 4, at + 5);
    let p3 = point_at(places, at + 6, at + 7);
    let p4 = point_at(places, at + 8, at + 9);
    CapStone {
        corner0: p0,
        corner1: p1,
        corner2: p2,
        corner3: p3,
        center: p4,
        c: c,
    }
}

// Three stones, one behind the other.
pub fn group_of(places: &[i32]) -> CapStoneGroup
    requires { 30 ≤ length places.now }
    ensures { result ≡ group_of places.now }
{
    let first = stone_at(places, 0);
    let second = stone_at(places, 10);
    let third = stone_at(places, 20);
    CapStoneGroup {
        first: first,
        second: second,
        third: third,
    }
}
