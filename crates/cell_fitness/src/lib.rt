// How dark a picture shows one cell of a grid, through a perspective (identify/grid.rs, `fitness_cell`), and sums of such scores.
#![tactic(auto)]

pub mod cell;
mod sum;

// A fitness: a score, or a point that lies nowhere (refusal 13).
// No Option: its sums are methods that read in the order of the parts, and on an Option they would be free functions wrapped around each other.
#[derive(Clone, Copy)]
pub enum Fitness {
    Score(i32),
    Unplaced,
}
