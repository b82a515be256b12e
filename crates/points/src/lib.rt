#![tactic(auto)]

// A place in a picture, or beside it: x counts to the right, y downwards.
#[derive(Clone, Copy, PartialEq, Eq)]
pub struct Point {
    pub x: i32,
    pub y: i32,
}
