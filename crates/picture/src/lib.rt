#![tactic(auto)]

use refusals::Refusal;

mod bitmap;
mod color;
mod ladder;

pub use bitmap::accept;
pub use color::byte_of;
pub use ladder::{room, seeded, sides};

// What a byte of a picture stands for. A numbered piece is Discarded, with its number.
#[derive(Clone, Copy, Debug, PartialEq, Eq)]
pub enum PixelColor {
    White,
    Black,
    CapStone,
    Alignment,
    Tmp1,
    Discarded(u8),
}
