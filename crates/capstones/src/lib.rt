// Capstones: the locator patterns of a symbol (detect.rs).
#![tactic(auto)]

ghost use Rattle.std.specs.Prelude.{◌≡◌, replicate};
ghost use Rattle.capstones.specs.Blank.{no_stone};

use geometry::Perspective;
use points::Point;

// One of the three corner patterns of a symbol: its own four corners, its centre, and its local perspective, by which it is seven wide and seven high.
#[derive(Clone, Copy)]
pub struct CapStone {
    pub corner0: Point,
    pub corner1: Point,
    pub corner2: Point,
    pub corner3: Point,
    pub center: Point,
    pub c: Perspective,
}

// The blank stone: what stands in an array wherever there is none.
pub fn blank() -> CapStone
    ensures { result ≡ no_stone }
{
    let nowhere = Point { x: 0, y: 0 };
    let nan = 0.0 / 0.0;
    CapStone {
        corner0: nowhere,
        corner1: nowhere,
        corner2: nowhere,
        corner3: nowhere,
        center: nowhere,
        c: Perspective {
            c0: nan,
            c1: nan,
            c2: nan,
            c3: nan,
            c4: nan,
            c5: nan,
            c6: nan,
            c7: nan,
        },
    }
}

// An array of blank stones.
pub fn blanks() -> [CapStone; 64]
    ensures { result ≡ replicate 64 no_stone }
{
    let none = blank();
    [none; 64]
}
