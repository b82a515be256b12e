// The perspective that takes the corners of a w by h rectangle to four points of a picture.
ghost use Rattle.std.specs.Prelude.{◌≡◌};
ghost use Rattle.geometry.specs.Create.{corners_of, width_den, height_den, coefficients, judged, sight_of};

use crate::{Perspective, Sight};
use points::Point;

// The corners' coordinates as floats.
#[derive(Clone, Copy)]
struct Corners {
    x0: f64,
    y0: f64,
    x1: f64,
    y1: f64,
    x2: f64,
    y2: f64,
    x3: f64,
    y3: f64,
}

fn corners_of(p0: Point, p1: Point, p2: Point, p3: Point) -> Corners
    ensures { result ≡ corners_of p0 p1 p2 p3 }
{
    Corners {
        x0: p0.x as f64,
        y0: p0.y as f64,
        x1: p1.x as f64,
        y1: p1.y as f64,
        x2: p2.x as f64,
        y2: p2.y as f64,
        x3: p3.x as f64,
        y3: p3.y as f64,
    }
}

fn width_den(c: Corners, w: f64) -> f64
    ensures { result ≡ width_den c w }
{
    let x1 = c.x1;
    let y1 = c.y1;
    let x2 = c.x2;
    let y2 = c.y2;
    let x3 = c.x3;
    let y3 = c.y3;
    w * (x2 * y3 - x3 * y2 + (x3 - x2) * y1 + x1 * (y2 - y3))
}

fn height_den(c: Corners, h: f64) -> f64
    ensures { result ≡ height_den c h }
{
    let x1 = c.x1;
    let y1 = c.y1;
    let x2 = c.x2;
    let y2 = c.y2;
    let x3 = c.x3;
    let y3 = c.y3;
    h * (x2 * y3 + x1 * (y2 - y3) - x3 * y2 + (x3 - x2) * y1)
}

// The eight coefficients, over the two denominators.
fn solved(c: Corners, wden: f64, hden: f64) -> Perspective
    ensures { result ≡ coefficients c wden hden }
{
    let x0 = c.x0;
    let y0 = c.y0;
    let x1 = c.x1;
    let y1 = c.y1;
    let x2 = c.x2;
    let y2 = c.y2;
    let x3 = c.x3;
    let y3 = c.y3;
    Perspective {
        c0: (x1 * (x2 * y3 - x3 * y2)
            + x0 * (-x2 * y3 + x3 * y2 + (x2 - x3) * y1)
            + x1 * (x3 - x2) * y0)
            / wden,
        c1: -(x0 * (x2 * y3 + x1 * (y2 - y3) - x2 * y1) - x1 * x3 * y2
            + x2 * x3 * y1
            + (x1 * x3 - x2 * x3) * y0)
            / hden,
        c2: x0,
        c3: (y0 * (x1 * (y3 - y2) - x2 * y3 + x3 * y2)
            + y1 * (x2 * y3 - x3 * y2)
            + x0 * y1 * (y2 - y3))
            / wden,
        c4: (x0 * (y1 * y3 - y2 * y3) + x1 * y2 * y3 - x2 * y1 * y3
            + y0 * (x3 * y2 - x1 * y2 + (x2 - x3) * y1))
            / hden,
        c5: y0,
        c6: (x1 * (y3 - y2) + x0 * (y2 - y3) + (x2 - x3) * y1 + (x3 - x2) * y0) / wden,
        c7: (-x2 * y3 + x1 * y3 + x3 * y2 + x0 * (y1 - y2) - x3 * y1 + (x2 - x1) * y0) / hden,
    }
}

fn judge(c: Corners, w: f64, h: f64) -> Sight
    ensures { result ≡ judged c w h }
{
    let wden = width_den(c, w);
    let hden = height_den(c, h);
    if wden < 2.220446049250313e-16 {
        return Sight::Flat;
    }
    if hden < 2.220446049250313e-16 {
        return Sight::Flat;
    }
    Sight::Made(solved(c, wden, hden))
}

impl Perspective {
    // The perspective of four corners, in their order, at w by h; flat where either denominator is below `f64::EPSILON`.
    pub fn create(p0: Point, p1: Point, p2: Point, p3: Point, w: f64, h: f64) -> Sight
        ensures { result ≡ sight_of p0 p1 p2 p3 w h }
    {
        judge(corners_of(p0, p1, p2, p3), w, h)
    }
}
