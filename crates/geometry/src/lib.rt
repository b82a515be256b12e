// Perspectives: from a grid to the picture that shows it, and back (geometry.rs).
#![tactic(auto)]

use points::Point;

mod create;
mod map;
mod unmap;

// A perspective, by its coefficients. The grid's point (u, v) lies in the picture at
// x = (c0 u + c1 v + c2) / (c6 u + c7 v + 1), y = (c3 u + c4 v + c5) / (c6 u + c7 v + 1).
#[derive(Clone, Copy)]
pub struct Perspective {
    pub c0: f64,
    pub c1: f64,
    pub c2: f64,
    pub c3: f64,
    pub c4: f64,
    pub c5: f64,
    pub c6: f64,
    pub c7: f64,
}

// The perspective of four corners: made, or flat, where they have none. No Option: document 01 names this form, an enum whose first case holds the perspective, the second nothing.
#[derive(Clone, Copy)]
pub enum Sight {
    Made(Perspective),
    Flat,
}

// A point of the grid.
#[derive(Clone, Copy)]
pub struct GridPoint {
    pub u: f64,
    pub v: f64,
}
