// Pieces of a picture: what they are (specs/) and laws about them (proofs/). The one type that code shares is a row.
#![tactic(auto)]

// The columns left to right of the line y, both ends included.
#[derive(Clone, Copy)]
pub struct Row {
    pub left: usize,
    pub right: usize,
    pub y: usize,
}
