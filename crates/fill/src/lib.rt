// Fills of a piece: the step that all share, and a fill for each purpose.
#![tactic(auto)]

pub mod paint;
mod runs;
mod seeds;
pub mod step;
