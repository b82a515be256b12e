// Rounding.
ghost use Rattle.std.specs.Prelude.{◌≤◌, length};
ghost use Rattle.told.specs.Answer.{Told};
ghost use Rattle.told_points.specs.Answers.{whole_values, round_answer};

use told::put;

fn put_whole(n: Option<i32>, out: &mut [i32]) -> u8
    requires { 1 ≤ length out.old }
    ensures { Told (whole_values n) out.old result out.new }
{
    match n {
        Some(z) => put::number(z, out),
        None => 13,
    }
}

// The whole number nearest to x, once there is a place for it.
pub fn round(x: f64, out: &mut [i32]) -> u8
    ensures { Told (round_answer x (length out.old)) out.old result out.new }
{
    if out.len() < 1 {
        return 3;
    }
    put_whole(rounding::nearest(x), out)
}
