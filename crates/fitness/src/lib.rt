// How well a perspective fits a grid (identify/grid.rs, `fitness_all`): the cells that each symbol of the size shows dark or light are looked at where the perspective has them.
#![tactic(auto)]

mod alignment;
mod rings;
mod timing;

ghost use Rattle.std.specs.Prelude.{length};
ghost use Rattle.picture.specs.Sides.{Sized};
ghost use Rattle.fitness.specs.Fitness.{GridSize, fitness_of};
ghost use Rattle.cell_fitness.specs.Scores.{Scores};

pub use alignment::{count, fitness_columns, fitness_edges};
use cell_fitness::Fitness;
use geometry::Perspective;
pub use rings::fitness_capstone;
pub use timing::fitness_timing;

// The fitness of a perspective for a grid with so many cells along a side.
pub fn fitness_all(pic: &[u8], width: usize, height: usize, c: Perspective, size: usize) -> Fitness
    requires fact_1 { Sized width height (length pic.now) }
    requires fact_2 { GridSize size }
    ensures { Scores (fitness_of pic.now width height size c) 20000 result }
{
    let side = size as u32;
    let last = side - 7;
    let version = (size - 17) / 4;
    let n = alignment::count(version);
    let timing = timing::fitness_timing(pic, width, height, c, side);
    let first = rings::fitness_capstone(pic, width, height, c, 0, 0);
    let right = rings::fitness_capstone(pic, width, height, c, last, 0);
    let below = rings::fitness_capstone(pic, width, height, c, 0, last);
    let edges = alignment::fitness_edges(pic, width, height, c, version, n);
    let columns = alignment::fitness_columns(pic, width, height, c, version, n);
    timing
        .plus(first)
        .plus(right)
        .plus(below)
        .plus(edges)
        .plus(columns)
}
