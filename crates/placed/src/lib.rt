// Whether a perspective certainly places every point of a grid, told by its coefficients alone.
#![tactic(auto)]

ghost use Rattle.std.specs.Prelude.{◌≡◌};
ghost use Rattle.placed.specs.Tame.{within, slant, near, tame};

use geometry::Perspective;

// Whether x lies strictly between -limit and limit.
fn is_within(x: f64, limit: f64) -> bool
    ensures { result ≡ within limit x }
{
    x < limit && -limit < x
}

// How far c6 and c7 may be from 0, for a grid of so many cells along a side.
fn slant(size: usize) -> f64
    ensures { result ≡ slant size }
{
    if size <= 32 {
        return 0.0078125;
    }
    if size <= 64 {
        return 0.00390625;
    }
    if size <= 128 {
        return 0.001953125;
    }
    0.0009765625
}

// Whether three coefficients of a numerator lie within 2^18.
fn are_near(a: f64, b: f64, c: f64) -> bool
    ensures { result ≡ near a b c }
{
    if !is_within(a, 262144.0) {
        return false;
    }
    if !is_within(b, 262144.0) {
        return false;
    }
    is_within(c, 262144.0)
}

// Whether a perspective is tame on a grid of so many cells along a side: then it places every point of every cell.
pub fn is_tame(c: Perspective, size: usize) -> bool
    ensures { result ≡ tame size c }
{
    let limit = slant(size);
    if !is_within(c.c6, limit) {
        return false;
    }
    if !is_within(c.c7, limit) {
        return false;
    }
    if !are_near(c.c0, c.c1, c.c2) {
        return false;
    }
    are_near(c.c3, c.c4, c.c5)
}
