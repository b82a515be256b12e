// A group's outline: its stones in order and turned, the size that its timing pattern tells, and where its fourth corner is looked for (identify/grid.rs, `from_group`, up to the intersection).
#![tactic(auto)]

ghost use Rattle.std.specs.Prelude.{◌≡◌, length};
ghost use Rattle.picture.specs.Sides.{Sized};
ghost use Rattle.groups.specs.Group.{Centred, Cornered};
ghost use Rattle.outline.specs.Outline.{meaning, judged_outline, crossed_outline, sized_outline, outline_of};

use groups::{CapStoneGroup, orient, rotate_group};
use lines::line_intersect;
use points::Point;
use refusals::Refusal;
use timing::measure_timing_pattern;

// The stones in order and turned, the direction from the first to the third, the modules along a side, and the fourth corner by the lines of the others.
#[derive(Clone, Copy)]
pub struct Outline {
    pub group: CapStoneGroup,
    pub hd: Point,
    pub size: usize,
    pub corner: Point,
}

// The outline with this corner: 12 where it lies too far out.
fn with_corner(
    group: CapStoneGroup,
    hd: Point,
    size: usize,
    corner: Point,
) -> Result<Option<Outline>, Refusal>
    ensures { meaning result ≡ judged_outline group hd size corner }
{
    let p = stated::judge(corner)?;
    Ok(Some(Outline {
        group: group,
        hd: hd,
        size: size,
        corner: p,
    }))
}

// The outline with this size: the corner is where the first stone's line meets the third's.
fn with_size(group: CapStoneGroup, hd: Point, size: usize) -> Result<Option<Outline>, Refusal>
    requires { Cornered group }
    ensures { meaning result ≡ crossed_outline group hd size }
{
    let first = group.first;
    let third = group.third;
    let Some(corner) = line_intersect(first.corner0, first.corner1, third.corner0, third.corner3)
    else {
        return Ok(None);
    };
    with_corner(group, hd, size, corner)
}

// The outline of stones in order and turned: 13, 12, 14 as the timing pattern gives them.
fn outline_turned(
    pic: &[u8],
    width: usize,
    height: usize,
    group: CapStoneGroup,
    hd: Point,
) -> Result<Option<Outline>, Refusal>
    requires fact_1 { Sized width height (length pic.now) }
    requires fact_2 { Cornered group }
    ensures { meaning result ≡ sized_outline pic.now width height group hd }
{
    let first = group.first;
    let second = group.second;
    let third = group.third;
    let size = measure_timing_pattern(pic, width, height, first.c, second.c, third.c)?;
    with_size(group, hd, size)
}

// The outline of a group: 15; then 13, 12, 14 of the timing pattern; then 12 of the corner.
#[tactic(auto, unfolding(crate::specs::Outline::outline_of, crate::specs::Outline::turned_outline))]
pub fn outline_of(
    pic: &[u8],
    width: usize,
    height: usize,
    group: CapStoneGroup,
) -> Result<Option<Outline>, Refusal>
    requires fact_1 { Sized width height (length pic.now) }
    requires fact_2 { Centred group }
    requires fact_3 { Cornered group }
    ensures { meaning result ≡ outline_of pic.now width height group }
{
    let o = orient(group);
    let hd = o.hd;
    let turned = rotate_group(o).ok_or(Refusal::Turned)?;
    outline_turned(pic, width, height, turned, hd)
}
