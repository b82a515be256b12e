// Marks: the finder patterns of a picture, found line by line (detect.rs).
#![tactic(auto)]

mod bitmap;
mod cuts;
mod ring;
mod search;
mod stone;

pub use bitmap::search_bitmap;
pub use ring::is_capstone;
pub use search::{Marks, capstones_from_image};
pub use stone::create_capstone;
