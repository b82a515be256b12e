// Values into the first places of a lent slice.
ghost use Rattle.std.specs.Prelude.{◌≡◌, ◌+◌, ◌≤◌, [], ◌∷◌, length, set};
ghost use Rattle.refusals.specs.Finding.{found};
ghost use Rattle.told.specs.Answer.{Told, these};

// One whole number.
pub fn number(z: i32, out: &mut [i32]) -> u8
    requires { 1 ≤ length out.old }
    ensures { Told (found (these (z ∷ []))) out.old result out.new }
{
    out[0] = z;
    0
}

// Two whole numbers.
pub fn numbers(x: i32, y: i32, out: &mut [i32]) -> u8
    requires { 2 ≤ length out.old }
    ensures { Told (found (these (x ∷ y ∷ []))) out.old result out.new }
{
    numbers_at(0, x, y, out);
    0
}

// Two whole numbers, from the place `at` on.
pub fn numbers_at(at: usize, x: i32, y: i32, out: &mut [i32])
    requires { at + 2 ≤ length out.old }
    ensures { out.new ≡ set (set out.old at x) (at + 1) y }
{
    out[at] = x;
    out[at + 1] = y;
}

// Two floats.
pub fn floats(u: f64, v: f64, out: &mut [f64]) -> u8
    requires { 2 ≤ length out.old }
    ensures { Told (found (these (u ∷ v ∷ []))) out.old result out.new }
{
    out[0] = u;
    out[1] = v;
    0
}
