// The final pass of detect: each group is fitted on the picture itself, in the order found (prepare.rs, `detect_grids`).
#![tactic(auto)]

use grids::SkewedGridLocation;
use refusals::Refusal;
use table::Table;

mod held;
mod pass;

pub use pass::fit_all;

// What the final pass has found: the located grids, which are the first n of the array, or why it refuses. Every other place of the array is blank.
#[derive(Clone, Copy)]
pub struct Locations {
    pub all: [SkewedGridLocation; 31],
    pub n: usize,
    pub table: Table,
    pub verdict: Result<(), Refusal>,
}
