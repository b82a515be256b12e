// The stages of detect, each of which hands on to the next: marks, groups, the final pass.
ghost use Rattle.std.specs.Prelude.{◌*◌, ◌≤◌, length};
ghost use Rattle.table.specs.Table.{empty_table};
ghost use Rattle.setups.specs.Remember.{AllRemember};
ghost use Rattle.fourth_corner.specs.Corner.{Workable};
ghost use Rattle.marks.specs.InWork.{InWork};
ghost use Rattle.marks.specs.Search as search;
ghost use Rattle.groupings.specs.Held as groups;
ghost use Rattle.detect.specs.Telling.{outcome, LaidOut};
ghost use Rattle.detect.specs.Stages.{Named, Finishes, Gathers, Finds};

use crate::Detection;
use crate::telling::with_locations;
use groupings::{Groupings, find_groupings};
use locations::fit_all;
use marks::{Marks, capstones_from_image};
use table::empty;

// What the groups of the marks come to: the final pass over them, by what their trials set up, then the bounds.
fn finish(
    pic: &mut [u8],
    width: usize,
    height: usize,
    stack: &mut [u32],
    marks: Marks,
    found: Groupings,
) -> Detection
    requires { Workable pic.old width height (length stack.old) marks.table × search.Laid marks × groups.Stones marks.stones marks.n × groups.Laid found × Named marks.n (groups.groups_of found) × AllRemember pic.old width height found.setups }
    ensures { Finishes width height (search.stones_of marks) pic.old marks.table (groups.outcome found) (outcome result.findings) pic.new result.table × LaidOut result.findings }
{
    let table = marks.table;
    let verdict = found.verdict;
    match verdict {
        Err(why) => Detection {
            findings: Err(why),
            table: table,
        },
        Ok(()) => {
            let stones = marks.stones;
            let groups = found.groups;
            let setups = found.setups;
            let n = found.n;
            let located = fit_all(pic, width, height, stack, table, stones, groups, setups, n);
            Detection {
                findings: with_locations(marks.n, located),
                table: located.table,
            }
        }
    }
}

// What the marks come to: their groups, and what these come to.
fn gather(
    pic: &mut [u8],
    width: usize,
    height: usize,
    stack: &mut [u32],
    scratch: &mut [u8],
    marks: Marks,
) -> Detection
    requires { Workable pic.old width height (length stack.old) marks.table × (width * height ≤ length scratch.old) × search.Laid marks × groups.Stones marks.stones marks.n }
    ensures { Gathers width height pic.old marks.table (search.outcome marks) (outcome result.findings) pic.new result.table × LaidOut result.findings }
{
    let table = marks.table;
    let verdict = marks.verdict;
    match verdict {
        Err(why) => Detection {
            findings: Err(why),
            table: table,
        },
        Ok(()) => {
            let stones = marks.stones;
            let found = find_groupings(pic, width, height, stack, scratch, table, stones, marks.n);
            finish(pic, width, height, stack, marks, found)
        }
    }
}

// What a bitmap comes to, from the empty table: its marks, and what these come to. The picture keeps the paint, also where a stage refuses.
pub fn find(
    pic: &mut [u8],
    width: usize,
    height: usize,
    stack: &mut [u32],
    scratch: &mut [u8],
) -> Detection
    requires { InWork pic.old width height (length stack.old) empty_table × (width * height ≤ length scratch.old) }
    ensures { Finds pic.old width height (outcome result.findings) pic.new result.table × LaidOut result.findings }
{
    let marks = capstones_from_image(pic, width, height, stack, empty());
    gather(pic, width, height, stack, scratch, marks)
}
