// Grids as detect tells them: where a located grid lies, and its bounds (prepare.rs, `detect_grids`).
#![tactic(auto)]

ghost use Rattle.std.specs.Prelude.{◌≡◌};
ghost use Rattle.geometry.specs.Map as map;
ghost use Rattle.bounds.specs.Bounds.{meaning, with_bounds, bounded_of};

use geometry::Perspective;
use grids::SkewedGridLocation;
use points::Point;

// A grid: how many cells it has along a side, its perspective, and its bounds, each by its place in the Rust's list.
#[derive(Clone, Copy)]
pub struct Grid {
    pub size: u8,
    pub c: Perspective,
    pub bound0: Point,
    pub bound1: Point,
    pub bound2: Point,
    pub bound3: Point,
}

// The grid with these bounds, if all four are placed.
#[tactic(auto, unfolding(crate::specs::Bounds::with_bounds))]
fn with_bounds(
    location: SkewedGridLocation,
    b0: Option<Point>,
    b1: Option<Point>,
    b2: Option<Point>,
    b3: Option<Point>,
) -> Option<Grid>
    ensures { meaning result ≡ with_bounds location (map.meaning b0) (map.meaning b1) (map.meaning b2) (map.meaning b3) }
{
    let size = location.size;
    let c = location.c;
    Some(Grid {
        size: size,
        c: c,
        bound0: b0?,
        bound1: b1?,
        bound2: b2?,
        bound3: b3?,
    })
}

// A located grid with its bounds.
pub fn bounds_of(location: SkewedGridLocation) -> Option<Grid>
    ensures { meaning result ≡ bounded_of location }
{
    let c = location.c;
    let side = location.size as f64 + 1.0;
    let b0 = c.map(0.0, 0.0);
    let b1 = c.map(side, 0.0);
    let b2 = c.map(side, side);
    let b3 = c.map(0.0, side);
    with_bounds(location, b0, b1, b2, b3)
}
