// Refinement: a perspective's coefficients are moved a little, one at a time, as long as that fits a grid better (identify/grid.rs, `jiggle_perspective`).
#![tactic(auto)]

mod adjust;
mod trial;

ghost use Rattle.std.specs.Prelude.{◌≡◌, length};
ghost use Rattle.picture.specs.Sides.{Sized};
ghost use Rattle.fitness.specs.Fitness.{GridSize};
ghost use Rattle.refine.specs.Refine.{meaning, refined_of};

use geometry::Perspective;

// A perspective, and its fitness.
#[derive(Clone, Copy)]
pub struct Refined {
    pub c: Perspective,
    pub score: i32,
}

// The perspective that five passes of adjustments lead to, from c, for a grid with so many cells along a side.
pub fn jiggle_perspective(
    pic: &[u8],
    width: usize,
    height: usize,
    c: Perspective,
    size: usize,
) -> Option<Refined>
    requires fact_1 { Sized width height (length pic.now) }
    requires fact_2 { GridSize size }
    ensures { meaning result ≡ refined_of pic.now width height size c }
{
    let mut best = trial::scored(c, fitness::fitness_all(pic, width, height, c, size));
    let mut steps = adjust::scaled(c, 0.02);
    for _ in 0..5usize {
        best = trial::pass(pic, width, height, best, steps, size);
        steps = adjust::scaled(steps, 0.5);
    }
    best
}
