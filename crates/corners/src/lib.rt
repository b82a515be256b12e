// The fill that looks for corners: it paints a piece, and shows the rows that it meets to a finder.
#![tactic(auto)]

mod all_corners;
mod finder;
mod first_corner;
mod left_most;
mod places;
mod scores;

pub use all_corners::AllCornerFinder;
pub use finder::{Finder, fill_and_find};
pub use first_corner::FirstCornerFinder;
pub use left_most::LeftMostFinder;
pub use places::{Best, point_at};
pub use scores::{across, along, distance, left_of, line_from};
