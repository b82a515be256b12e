// Copies of a perspective with one coefficient changed, for refinement.
#![tactic(auto)]

ghost use Rattle.std.specs.Prelude.{◌≡◌};
ghost use Rattle.changes.specs.Change.{coefficient, replaced, raised, lowered};

use geometry::Perspective;

// Coefficient j; the last for every j from 7 on.
pub fn coefficient(p: Perspective, j: usize) -> f64
    ensures { result ≡ coefficient p j }
{
    match j {
        0 => p.c0,
        1 => p.c1,
        2 => p.c2,
        3 => p.c3,
        4 => p.c4,
        5 => p.c5,
        6 => p.c6,
        _ => p.c7,
    }
}

// The perspective p with c for its coefficient j; p itself for every j from 8 on.
pub fn with(mut p: Perspective, j: usize, c: f64) -> Perspective
    ensures { result ≡ replaced p j c }
{
    match j {
        0 => p.c0 = c,
        1 => p.c1 = c,
        2 => p.c2 = c,
        3 => p.c3 = c,
        4 => p.c4 = c,
        5 => p.c5 = c,
        6 => p.c6 = c,
        7 => p.c7 = c,
        _ => {}
    }
    p
}

// The perspective p with its coefficient j a step higher. Higher and lower apart, as a pass tries them: each is one line over `with`.
pub fn raise(p: Perspective, j: usize, step: f64) -> Perspective
    ensures { result ≡ raised p j step }
{
    let old = coefficient(p, j);
    with(p, j, old + step)
}

// The perspective p with its coefficient j a step lower.
pub fn lower(p: Perspective, j: usize, step: f64) -> Perspective
    ensures { result ≡ lowered p j step }
{
    let old = coefficient(p, j);
    with(p, j, old - step)
}
