// The bounds of all located grids, after the final pass (prepare.rs, `detect_grids`).
#![tactic(auto)]

use bounds::Grid;

mod all;
mod held;

pub use all::bound_all;
pub use held::blanks;

// Grids with their bounds, which are the first n of the array. Every other place of the array is blank.
#[derive(Clone, Copy)]
pub struct Grids {
    pub all: [Grid; 31],
    pub n: usize,
}
