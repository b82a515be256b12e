// The fourth corner of an outline: where the lines of the others meet, or, above size 21, at the alignment pattern near that (identify/grid.rs, `from_group`).
#![tactic(auto)]

ghost use Rattle.std.specs.Prelude.{◌≤◌, length};
ghost use Rattle.refusals.specs.Limits.{farthest};
ghost use Rattle.points.specs.Range.{Near};
ghost use Rattle.corners.specs.Scores.{Direction};
ghost use Rattle.alignment.specs.Search.{meaning};
ghost use Rattle.outline.specs.Outline.{Sketched};
ghost use Rattle.fourth_corner.specs.Corner.{Workable, Seeks, Corners};

use alignment::{Sought, find_alignment_pattern, leftmost, size_estimate};
use outline::Outline;
use points::Point;
use table::Table;

// Looks for an alignment pattern of the estimate's size near the corner; it is claimed, and its leftmost point is answered.
fn seek(
    pic: &mut [u8],
    width: usize,
    height: usize,
    stack: &mut [u32],
    table: Table,
    corner: Point,
    hd: Point,
    estimate: usize,
) -> Sought
    requires { Workable pic.old width height (length stack.old) table × Near corner × Direction hd × (estimate ≤ farthest) }
    ensures { Seeks pic.old width height table corner hd estimate (meaning result.place) pic.new result.table }
{
    let sought = find_alignment_pattern(pic, width, height, stack, table, corner, estimate);
    let Ok(Some(at)) = sought.place else {
        return sought;
    };
    let point = leftmost(pic, width, height, stack, at, hd);
    Sought {
        place: Ok(Some(point)),
        table: sought.table,
    }
}

// The fourth corner, beside the table that looking for it leaves: above size 21 by the alignment pattern, with 13 and 12 of its estimate and 10 of the lookups.
pub fn find_corner(
    pic: &mut [u8],
    width: usize,
    height: usize,
    stack: &mut [u32],
    table: Table,
    outline: Outline,
) -> Sought
    requires { Workable pic.old width height (length stack.old) table × Sketched outline }
    ensures { Corners pic.old width height table outline (meaning result.place) pic.new result.table }
{
    let corner = outline.corner;
    if outline.size <= 21 {
        return Sought {
            place: Ok(Some(corner)),
            table: table,
        };
    }
    let hd = outline.hd;
    let group = outline.group;
    let first = group.first;
    let third = group.third;
    match size_estimate(first.c, third.c, corner) {
        Ok(n) => seek(pic, width, height, stack, table, corner, hd, n),
        Err(why) => Sought {
            place: Err(why),
            table: table,
        },
    }
}
