// From the grid to the picture.
ghost use Rattle.std.specs.Prelude.{◌≡◌};
ghost use Rattle.rounding.specs.Nearest.{nearest_of};
ghost use Rattle.geometry.specs.Map.{meaning, placed, map_den, mapped};

use crate::Perspective;
use points::Point;

fn place(x: f64, y: f64) -> Option<Point>
    ensures { meaning result ≡ placed (nearest_of x) (nearest_of y) }
{
    Some(Point {
        x: rounding::nearest(x)?,
        y: rounding::nearest(y)?,
    })
}

fn map_den(p: Perspective, u: f64, v: f64) -> f64
    ensures { result ≡ map_den p u v }
{
    p.c6 * u + p.c7 * v + 1.0
}

impl Perspective {
    // The pixel's place at which the grid's point (u, v) lies, halves rounded away from zero; or none (refusal 13).
    pub fn map(self, u: f64, v: f64) -> Option<Point>
        ensures { meaning result ≡ mapped self u v }
    {
        let den = map_den(self, u, v);
        let x = (self.c0 * u + self.c1 * v + self.c2) / den;
        let y = (self.c3 * u + self.c4 * v + self.c5) / den;
        place(x, y)
    }
}
