// Groups of three stones that may be a symbol's: put in order, and each stone turned as the symbol lies (identify/grid.rs, `from_group` and `rotate_capstone`).
#![tactic(auto)]

use capstones::CapStone;
use points::Point;

mod orienting;
mod rotating;
mod sides;
mod turning;

pub use orienting::orient;
pub use rotating::rotate_group;
pub use sides::side_of;
pub use turning::rotate_capstone;

// Three stones: the first and the third lie beside the second, each along one side of the symbol.
#[derive(Clone, Copy)]
pub struct CapStoneGroup {
    pub first: CapStone,
    pub second: CapStone,
    pub third: CapStone,
}

// A group in order, and the line that its stones are turned by: through h0, in the direction hd.
#[derive(Clone, Copy)]
pub struct Oriented {
    pub group: CapStoneGroup,
    pub h0: Point,
    pub hd: Point,
}
