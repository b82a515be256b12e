// The fitness of a perspective, as far as it can exceed the best so far: a trial is given up as soon as the cells that were not looked at can't lift it over that.
#![tactic(auto)]

mod outdone;
mod parts;
mod rest;

ghost use Rattle.std.specs.Prelude.{◌≡◌, length};
ghost use Rattle.picture.specs.Sides.{Sized};
ghost use Rattle.cell_fitness.specs.Scores.{meaning};
ghost use Rattle.fitness.specs.Fitness.{GridSize, fitness_of};
ghost use Rattle.beyond.specs.Capped.{capped};

use cell_fitness::Fitness;
use geometry::Perspective;

// The fitness of a perspective where it exceeds the best, and else a score that does not. Where a point may lie nowhere, all cells are looked at.
pub fn fitness_beyond(
    pic: &[u8],
    width: usize,
    height: usize,
    c: Perspective,
    size: usize,
    best: i32,
) -> Fitness
    requires fact_1 { Sized width height (length pic.now) }
    requires fact_2 { GridSize size }
    ensures { capped best (meaning result) ≡ capped best (fitness_of pic.now width height size c) }
{
    if placed::is_tame(c, size) {
        return parts::by_parts(pic, width, height, c, size, best);
    }
    fitness::fitness_all(pic, width, height, c, size)
}
