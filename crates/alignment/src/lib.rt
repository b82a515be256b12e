// The alignment pattern: how large it is taken to be, the spiral that looks for it, and its claim (identify/grid.rs, `find_alignment_pattern` and `from_group`).
#![tactic(auto)]

mod estimate;
mod glide;
mod pattern;
mod search;
mod spiral;
mod visit;

pub use estimate::size_estimate;
pub use pattern::leftmost;
pub use search::{Sought, find_alignment_pattern};
pub use spiral::Pass;
pub use visit::Visit;
