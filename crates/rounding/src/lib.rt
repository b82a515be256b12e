// `f64::round` and the cast to `i32` after it, written out: the whole number nearest to a float.
#![tactic(auto)]

ghost use Rattle.std.specs.Prelude.{◌≡◌, ◌≤◌, ◌<◌, ◌^◌, T, true, false, pos, negsuc, neg_ℤ};
ghost use Rattle.std.specs.Float.Ieee.{lt};
ghost use Rattle.std.specs.Float.{fin};
ghost use Rattle.rounding.specs.Nearest.{nearest_of, size_of};

// The whole number nearest to x, a half upwards, for an x above 0 and below 2^31 + 1/2. From 2^52 on floats are whole numbers: adding that rounds x, a half to the even number, which is then one too low or none.
fn half_up(x: f64) -> u64
    requires fact_1 { T (lt (fin false 0 (pos 0)) x) }
    requires fact_2 { T (lt x (fin false 4294967297 (negsuc 0))) }
    ensures { result ≡ size_of x }
{
    let even = x + 4503599627370496.0 - 4503599627370496.0;
    let n = even as u32;
    if x < even + 0.5 {
        return n as u64;
    }
    n as u64 + 1
}

// n as an `i32`.
fn plus(n: u64) -> i32
    requires { n < 2 ^ 31 }
    ensures { result ≡ pos n }
{
    n as i32
}

// -n as an `i32`.
fn minus(n: u64) -> i32
    requires { n ≤ 2 ^ 31 }
    ensures { result ≡ neg_ℤ (pos n) }
{
    (0 - (n as i64)) as i32
}

// The whole number nearest to x, a half away from zero, where an `i32` holds it.
pub fn nearest(x: f64) -> Option<i32>
    ensures { result ≡ nearest_of x }
{
    if x > 0.0 {
        if x < 2147483647.5 {
            return Some(plus(half_up(x)));
        }
        return None;
    }
    if x < 0.0 {
        if x > -2147483648.5 {
            return Some(minus(half_up(-x)));
        }
        return None;
    }
    if x != x {
        return None;
    }
    Some(0)
}
