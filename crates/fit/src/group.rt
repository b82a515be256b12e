// A group fitted, where nothing is to be refused before its steps: the outline, then the fourth corner, then the grid.
ghost use Rattle.std.specs.Prelude.{◌≡◌, length};
ghost use Rattle.picture.specs.Sides.{Sized};
ghost use Rattle.alignment.specs.Search as search;
ghost use Rattle.outline.specs.Outline.{Sketched};
ghost use Rattle.groups.specs.Group.{Centred, Cornered};
ghost use Rattle.grids.specs.Grid.{meaning};
ghost use Rattle.setups.specs.Remember.{Remembers};
ghost use Rattle.fourth_corner.specs.Corner.{Workable};
ghost use Rattle.fit.specs.Fit.{located_by, Completes, Fits};

use crate::{Fitted, Refitted};
use fourth_corner::find_corner;
use groups::CapStoneGroup;
use outline::{Outline, outline_of};
use points::Point;
use refusals::Refusal;
use setups::{Answer, Setup, no_setup, set_up};
use table::Table;

// The grid of an outline and its fourth corner, if there is one, by a setup that is known.
fn located(
    pic: &[u8],
    width: usize,
    height: usize,
    outline: Outline,
    place: Result<Option<Point>, Refusal>,
    known: Setup,
) -> Answer
    requires fact_1 { Sized width height (length pic.now) }
    requires fact_2 { Sketched outline }
    requires fact_3 { Remembers pic.now width height known }
    ensures { (meaning result.fit ≡ located_by pic.now width height outline (search.meaning place)) × Remembers pic.now width height result.setup }
{
    let group = outline.group;
    let first = group.first;
    let second = group.second;
    let third = group.third;
    let size = outline.size;
    match place {
        Ok(Some(corner)) => set_up(
            pic,
            width,
            height,
            second.corner0,
            third.corner0,
            corner,
            first.corner0,
            size,
            known,
        ),
        Ok(None) => Answer {
            fit: Ok(None),
            setup: known,
        },
        Err(why) => Answer {
            fit: Err(why),
            setup: known,
        },
    }
}

// What an outline comes to, by a setup that is known.
fn complete(
    pic: &mut [u8],
    width: usize,
    height: usize,
    stack: &mut [u32],
    table: Table,
    outline: Outline,
    known: Setup,
) -> Refitted
    requires { Workable pic.old width height (length stack.old) table × Sketched outline × Remembers pic.old width height known }
    ensures { Completes pic.old width height table outline (meaning result.answer.fit) pic.new result.table × Remembers pic.old width height result.answer.setup }
{
    let sought = find_corner(pic, width, height, stack, table, outline);
    let place = sought.place;
    let after = sought.table;
    let answer = located(pic, width, height, outline, place, known);
    Refitted {
        answer: answer,
        table: after,
    }
}

// Fits a group by a setup that is known, and leaves the paint: refusals as its steps meet them.
pub fn refit(
    pic: &mut [u8],
    width: usize,
    height: usize,
    stack: &mut [u32],
    table: Table,
    group: CapStoneGroup,
    known: Setup,
) -> Refitted
    requires { Workable pic.old width height (length stack.old) table × Centred group × Cornered group × Remembers pic.old width height known }
    ensures { Fits pic.old width height table group (meaning result.answer.fit) pic.new result.table × Remembers pic.old width height result.answer.setup }
{
    match outline_of(pic, width, height, group) {
        Ok(Some(outline)) => complete(pic, width, height, stack, table, outline, known),
        Ok(None) => Refitted {
            answer: Answer {
                fit: Ok(None),
                setup: known,
            },
            table: table,
        },
        Err(why) => Refitted {
            answer: Answer {
                fit: Err(why),
                setup: known,
            },
            table: table,
        },
    }
}

// Fits a group, with no setup known.
pub fn from_group(
    pic: &mut [u8],
    width: usize,
    height: usize,
    stack: &mut [u32],
    table: Table,
    group: CapStoneGroup,
) -> Fitted
    requires { Workable pic.old width height (length stack.old) table × Centred group × Cornered group }
    ensures { Fits pic.old width height table group (meaning result.fit) pic.new result.table }
{
    let known = no_setup();
    let done = refit(pic, width, height, stack, table, group, known);
    let answer = done.answer;
    let fit = answer.fit;
    let left = done.table;
    Fitted {
        fit: fit,
        table: left,
    }
}
