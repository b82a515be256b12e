// Detect: from a bitmap to the grids of its symbols (prepare.rs, `detect_grids`).
#![tactic(auto)]

use bounds::Grid;
use refusals::Refusal;
use table::Table;

mod ladder;
mod stages;
mod telling;
mod whole;

pub use whole::detect;

// What detect tells: how many stones a picture has, and its grids, which are the first n of the array. Every other place of the array is blank.
#[derive(Clone, Copy)]
pub struct Findings {
    pub stones: usize,
    pub grids: [Grid; 31],
    pub n: usize,
}

// What detect tells, or why it refuses, beside the table that it leaves.
#[derive(Clone, Copy)]
pub struct Detection {
    pub findings: Result<Findings, Refusal>,
    pub table: Table,
}
