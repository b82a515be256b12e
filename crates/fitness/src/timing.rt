// The timing lines.
ghost use Rattle.std.specs.Prelude.{◌+◌, ◌<◌, length};
ghost use Rattle.picture.specs.Sides.{Sized};
ghost use Rattle.fitness.specs.Expected.{crossing, timing};
ghost use Rattle.cell_fitness.specs.Scores.{Scores};
ghost use Rattle.fitness.specs.Fitness.{GridSize, score_of};

use cell_fitness::Fitness;
use cell_fitness::cell::fitness_cell;
use geometry::Perspective;

// Place k of both lines.
fn fitness_crossing(pic: &[u8], width: usize, height: usize, c: Perspective, k: u32) -> Fitness
    requires { Sized width height (length pic.now) }
    ensures { Scores (score_of pic.now width height c (crossing k)) 18 result }
{
    let across = fitness_cell(pic, width, height, c, k, 6);
    let down = fitness_cell(pic, width, height, c, 6, k);
    if k % 2 == 0 {
        return across.plus(down);
    }
    across.plus(down).opposite()
}

// Both lines, between the marks.
pub fn fitness_timing(pic: &[u8], width: usize, height: usize, c: Perspective, size: u32) -> Fitness
    requires fact_1 { Sized width height (length pic.now) }
    requires fact_2 { GridSize size }
    ensures { Scores (score_of pic.now width height c (timing size)) 3000 result }
{
    let mut score = Fitness::Score(0);
    for k in 7..size - 7 {
        score = score.plus(fitness_crossing(pic, width, height, c, k));
    }
    score
}
