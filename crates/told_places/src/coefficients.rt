// A perspective's coefficients, from a lent slice and into one.
ghost use Rattle.std.specs.Prelude.{◌≡◌, ◌+◌, ◌≤◌, length};
ghost use Rattle.told_places.specs.Lent.{perspective_at};
ghost use Rattle.told_places.specs.Put.{put_at};
ghost use Rattle.told_places.specs.Values.{floats_of};

use geometry::Perspective;

// The perspective whose eight coefficients stand from a place on.
pub fn perspective_at(c: &[f64], at: usize) -> Perspective
    requires { at + 8 ≤ length c.now }
    ensures { result ≡ perspective_at c.now at }
{
    Perspective {
        c0: c[at],
        c1: c[at + 1],
        c2: c[at + 2],
        c3: c[at + 3],
        c4: c[at + 4],
        c5: c[at + 5],
        c6: c[at + 6],
        c7: c[at + 7],
    }
}

// All eight, from a place on.
pub fn put_floats(c: Perspective, at: usize, out: &mut [f64])
    requires { at + 8 ≤ length out.old }
    ensures { out.new ≡ put_at out.old at (floats_of c) }
{
    out[at] = c.c0;
    out[at + 1] = c.c1;
    out[at + 2] = c.c2;
    out[at + 3] = c.c3;
    out[at + 4] = c.c4;
    out[at + 5] = c.c5;
    out[at + 6] = c.c6;
    out[at + 7] = c.c7;
}
