// Fitting a group of stones: from three stones to a located grid (identify/grid.rs, `SkewedGridLocation::from_group`).
#![tactic(auto)]

use grids::SkewedGridLocation;
use refusals::Refusal;
use setups::Answer;
use table::Table;

mod group;
mod ladder;
mod whole;

pub use group::{from_group, refit};
pub use whole::fit_group;

// What a group comes to, beside the table that fitting it leaves.
#[derive(Clone, Copy)]
pub struct Fitted {
    pub fit: Result<Option<SkewedGridLocation>, Refusal>,
    pub table: Table,
}

// The same, with what is remembered of the setup.
#[derive(Clone, Copy)]
pub struct Refitted {
    pub answer: Answer,
    pub table: Table,
}
