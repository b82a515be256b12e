// Claims of a piece.
ghost use Rattle.std.specs.Prelude.{◌≤◌, length};
ghost use Rattle.refusals.specs.Finding.{found};
ghost use Rattle.claim.specs.Outcome.{claimed};
ghost use Rattle.told.specs.Answer.{Told};
ghost use Rattle.told_claims.specs.Claims.{count_values, Claims};

use fill::paint::Counts;
use refusals::Refusal;

fn put_counts(n: Counts, out: &mut [usize]) -> u8
    requires { 3 ≤ length out.old }
    ensures { Told (count_values (found n)) out.old result out.new }
{
    out[0] = n.rows;
    out[1] = n.pixels;
    out[2] = n.pushes;
    0
}

fn put_claimed(a: Result<Counts, Refusal>, out: &mut [usize]) -> u8
    requires { 3 ≤ length out.old }
    ensures { Told (count_values (claimed a)) out.old result out.new }
{
    match a {
        Ok(n) => put_counts(n, out),
        Err(why) => u8::from(why),
    }
}

// Claims the piece of (x, y), once there are places for its counts: rows met, pixels painted, stack entries pushed.
pub fn claim(
    pic: &mut [u8],
    width: usize,
    height: usize,
    stack: &mut [u32],
    x: usize,
    y: usize,
    target: u8,
    counts: &mut [usize],
) -> u8
    ensures { Claims pic.old width height (length stack.old) x y target pic.new counts.old result counts.new }
{
    if counts.len() < 3 {
        return 3;
    }
    put_claimed(
        claim::claim(pic, width, height, stack, x, y, target),
        counts,
    )
}
