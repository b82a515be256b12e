// Located grids: the perspective of a symbol, set up from its corners and refined (identify/grid.rs, `SkewedGridLocation`, `setup_perspective`).
#![tactic(auto)]

ghost use Rattle.std.specs.Prelude.{◌≡◌, ◌≤◌, length};
ghost use Rattle.refusals.specs.Finding.{found};
ghost use Rattle.picture.specs.Sides.{Sized};
ghost use Rattle.version_db.specs.AnnexE.{version_of};
ghost use Rattle.fitness.specs.Fitness.{GridSize};
ghost use Rattle.grids.specs.Grid.{meaning, Modules, grid_of, refined_grid, set_up};

use geometry::{Perspective, Sight};
use points::Point;
use refine::Refined;
use refusals::Refusal;

// Where a grid lies: how many cells it has along a side, and its perspective.
#[derive(Clone, Copy)]
pub struct SkewedGridLocation {
    pub size: u8,
    pub c: Perspective,
}

// The version that has so many cells along a side.
pub fn version_from_grid_size(size: usize) -> usize
    requires { 17 ≤ size }
    ensures { result ≡ version_of size }
{
    (size - 17) / 4
}

// The grid of this size, with the perspective that refinement arrived at.
fn located(best: Refined, size: usize) -> Result<Option<SkewedGridLocation>, Refusal>
    requires { GridSize size }
    ensures { meaning result ≡ grid_of size (found best) }
{
    let c = best.c;
    Ok(Some(SkewedGridLocation {
        size: size as u8,
        c: c,
    }))
}

// The grid that refinement arrives at from c.
#[tactic(auto, unfolding(crate::specs::Grid::refined_grid, crate::specs::Grid::grid_of))]
fn refined(
    pic: &[u8],
    width: usize,
    height: usize,
    c: Perspective,
    size: usize,
) -> Result<Option<SkewedGridLocation>, Refusal>
    requires fact_1 { Sized width height (length pic.now) }
    requires fact_2 { GridSize size }
    ensures { meaning result ≡ refined_grid pic.now width height size c }
{
    let best = refine::jiggle_perspective(pic, width, height, c, size).ok_or(Refusal::Unplaced)?;
    located(best, size)
}

// The grid whose corners, seven cells in from its sides, lie at these points: none above version 40, and none where they are flat.
pub fn setup_perspective(
    pic: &[u8],
    width: usize,
    height: usize,
    p0: Point,
    p1: Point,
    p2: Point,
    p3: Point,
    size: usize,
) -> Result<Option<SkewedGridLocation>, Refusal>
    requires fact_1 { Sized width height (length pic.now) }
    requires fact_2 { Modules size }
    ensures { meaning result ≡ set_up pic.now width height size p0 p1 p2 p3 }
{
    if version_from_grid_size(size) >= 41 {
        return Ok(None);
    }
    let span = (size - 7) as u32;
    let side = span as f64;
    match Perspective::create(p0, p1, p2, p3, side, side) {
        Sight::Made(c) => refined(pic, width, height, c, size),
        Sight::Flat => Ok(None),
    }
}
