// From the picture to the grid.
ghost use Rattle.std.specs.Prelude.{◌≡◌};
ghost use Rattle.geometry.specs.Unmap.{unmap_den, unmap_u, unmap_v, unmapped_at, unmapped};

use crate::{GridPoint, Perspective};
use points::Point;

fn unmap_den(p: Perspective, x: f64, y: f64) -> f64
    ensures { result ≡ unmap_den p x y }
{
    -p.c0 * p.c7 * y + p.c1 * p.c6 * y + (p.c3 * p.c7 - p.c4 * p.c6) * x + p.c0 * p.c4 - p.c1 * p.c3
}

fn unmap_u(p: Perspective, x: f64, y: f64, den: f64) -> f64
    ensures { result ≡ unmap_u p x y den }
{
    -(p.c1 * (y - p.c5) - p.c2 * p.c7 * y + (p.c5 * p.c7 - p.c4) * x + p.c2 * p.c4) / den
}

fn unmap_v(p: Perspective, x: f64, y: f64, den: f64) -> f64
    ensures { result ≡ unmap_v p x y den }
{
    (p.c0 * (y - p.c5) - p.c2 * p.c6 * y + (p.c5 * p.c6 - p.c3) * x + p.c2 * p.c3) / den
}

fn unmap_at(p: Perspective, x: f64, y: f64) -> GridPoint
    ensures { result ≡ unmapped_at p x y }
{
    let den = unmap_den(p, x, y);
    let u = unmap_u(p, x, y, den);
    let v = unmap_v(p, x, y, den);
    GridPoint { u: u, v: v }
}

impl Perspective {
    // The point of the grid that lies at q.
    pub fn unmap(self, q: Point) -> GridPoint
        ensures { result ≡ unmapped self q }
    {
        unmap_at(self, q.x as f64, q.y as f64)
    }
}
