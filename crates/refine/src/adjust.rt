// Adjustments: one for each coefficient of a perspective, and so held as one.
ghost use Rattle.std.specs.Prelude.{◌≡◌};
ghost use Rattle.refine.specs.Adjust.{scaled, adjusted};

use changes::{coefficient, lower, raise};
use geometry::Perspective;

// Each coefficient times k.
pub fn scaled(p: Perspective, k: f64) -> Perspective
    ensures { result ≡ scaled p k }
{
    Perspective {
        c0: p.c0 * k,
        c1: p.c1 * k,
        c2: p.c2 * k,
        c3: p.c3 * k,
        c4: p.c4 * k,
        c5: p.c5 * k,
        c6: p.c6 * k,
        c7: p.c7 * k,
    }
}

// What trial i of a pass tries: coefficient i / 2 a step lower, and then a step higher.
pub fn adjusted(steps: Perspective, c: Perspective, i: usize) -> Perspective
    ensures { result ≡ adjusted steps c i }
{
    let step = coefficient(steps, i / 2);
    if i % 2 == 0 {
        return lower(c, i / 2, step);
    }
    raise(c, i / 2, step)
}
