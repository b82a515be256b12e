// What fitting a group refuses before its first step: 1, 2, 3, 9, 12.
ghost use Rattle.std.specs.Prelude.{◌≡◌, ◌≤◌};
ghost use Rattle.refusals.specs.Limits.{longest_side};
ghost use Rattle.refusals.specs.First.{first, sound};
ghost use Rattle.picture.specs.Verdict.{judged};
ghost use Rattle.fit.specs.Tests.{along, on_picture, stone_inside, stone_taken, group_taken, own_tests, fit_tests};

use capstones::CapStone;
use groups::CapStoneGroup;
use picture::room;
use points::Point;
use refusals::Refusal;
use stated::is_near;
use table::{Table, is_sound};

// Whether a coordinate is one of a side's.
fn is_along(z: i32, side: usize) -> bool
    ensures { result ≡ along side z }
{
    0 <= z && (z as usize) < side
}

// Whether a point is a pixel of the picture.
#[tactic(auto, unfolding(crate::specs::Tests::on_picture))]
fn is_inside(p: Point, width: usize, height: usize) -> bool
    ensures { result ≡ on_picture width height p }
{
    is_along(p.x, width) && is_along(p.y, height)
}

// Whether all corners of a stone are.
#[tactic(auto, unfolding(crate::specs::Tests::stone_inside))]
fn is_framed(s: CapStone, width: usize, height: usize) -> bool
    ensures { result ≡ stone_inside width height s }
{
    is_inside(s.corner0, width, height)
        && is_inside(s.corner1, width, height)
        && is_inside(s.corner2, width, height)
        && is_inside(s.corner3, width, height)
}

// Whether fit takes a stone.
#[tactic(auto, unfolding(crate::specs::Tests::stone_taken))]
fn is_taken(s: CapStone, width: usize, height: usize) -> bool
    ensures { result ≡ stone_taken width height s }
{
    is_framed(s, width, height) && is_near(s.center)
}

// Whether fit takes all stones of a group.
#[tactic(auto, unfolding(crate::specs::Tests::group_taken))]
fn is_taken_whole(g: CapStoneGroup, width: usize, height: usize) -> bool
    ensures { result ≡ group_taken width height g }
{
    is_taken(g.first, width, height)
        && is_taken(g.second, width, height)
        && is_taken(g.third, width, height)
}

// The tests of fit that are its own: 3 for the scratch, 9, 12.
fn own(
    width: usize,
    height: usize,
    scratch: usize,
    table: Table,
    group: CapStoneGroup,
) -> Result<(), Refusal>
    requires { (width ≤ longest_side) × (height ≤ longest_side) }
    ensures { judged result ≡ first (own_tests width height scratch table group) sound }
{
    if scratch < width * height {
        return Err(Refusal::Room);
    }
    if !is_sound(table, width, height) {
        return Err(Refusal::Table);
    }
    if !is_taken_whole(group, width, height) {
        return Err(Refusal::Far);
    }
    Ok(())
}

// All the tests before the first step.
pub fn fittable(
    width: usize,
    height: usize,
    len: usize,
    lent: usize,
    scratch: usize,
    table: Table,
    group: CapStoneGroup,
) -> Result<(), Refusal>
    ensures { judged result ≡ first (fit_tests width height len lent scratch table group) sound }
{
    room(width, height, len, lent)?;
    own(width, height, scratch, table, group)
}
