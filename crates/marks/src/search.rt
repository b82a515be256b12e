// The search for marks: cut by cut, from top to bottom (detect.rs, `capstones_from_image`).
ghost use Rattle.std.specs.Prelude.{◌≡◌, [], ◌∷◌, ◌++◌, ◌<◌, length};
ghost use Rattle.refusals.specs.Finding.{found};
ghost use Rattle.laid.specs.Laid.{told};
ghost use Rattle.capstones.specs.declared.CapStone.{CapStone};
ghost use Rattle.regions.specs.Found as regions;
ghost use Rattle.marks.specs.InWork.{InWork};
ghost use Rattle.marks.specs.Stone.{meaning};
ghost use Rattle.marks.specs.Search.{Markable, Marked, all_cuts, Searches, stones_of, outcome, Laid};

use crate::cuts::next_cut;
use crate::ring::is_capstone;
use crate::stone::create_capstone;
use capstones::{CapStone, blanks};
use refusals::Refusal;
use regions::{ColoredRegion, get_region};
use scanner::{LinePosition, LineScanner};
use table::Table;

// What a search has found: the stones, which are the first n of the array, or why it refuses. Every other place of the array is blank.
#[derive(Clone, Copy)]
pub struct Marks {
    pub stones: [CapStone; 64],
    pub n: usize,
    pub table: Table,
    pub verdict: Result<(), Refusal>,
}

// What a cut of line y comes to, after n stones, once its ring and its stone are looked up: nothing where the ring test fails.
fn mark_at(
    pic: &mut [u8],
    width: usize,
    height: usize,
    stack: &mut [u32],
    cut: LinePosition,
    y: usize,
    ring: Result<ColoredRegion, Refusal>,
    stone: Result<ColoredRegion, Refusal>,
    n: usize,
) -> Result<Option<CapStone>, Refusal>
    requires { Markable pic.old width height (length stack.old) y cut (regions.meaning ring) (regions.meaning stone) }
    ensures { Marked pic.old width height y cut (regions.meaning ring) (regions.meaning stone) n (meaning result) pic.new }
{
    if !is_capstone(pic, width, height, cut, y, ring, stone) {
        return Ok(None);
    }
    create_capstone(pic, width, height, stack, cut.right, y, n)
}

// The marks with one stone more.
fn with_stone(marks: Marks, stone: CapStone) -> Marks
    requires { Laid marks × (outcome marks ≡ found (stones_of marks)) × (marks.n < 64) }
    ensures { (outcome result ≡ found (stones_of marks ++ (stone ∷ []))) × Laid result × (result.table ≡ marks.table) }
{
    let mut stones = marks.stones;
    let table = marks.table;
    let n = marks.n;
    stones[n] = stone;
    Marks {
        stones: stones,
        n: n + 1,
        table: table,
        verdict: Ok(()),
    }
}

// No marks: none yet, or why there are none.
pub fn none(verdict: Result<(), Refusal>, table: Table) -> Marks
    ensures { (outcome result ≡ told verdict []) × Laid result × (result.table ≡ table) }
{
    let stones = blanks();
    Marks {
        stones: stones,
        n: 0,
        table: table,
        verdict: verdict,
    }
}

// Finds all marks of a picture, from cut to cut: at each the ring is looked up, then the stone. The stones found stay where they are while
// no other turns up. The picture keeps the paint, also where the search is refused.
pub fn capstones_from_image(
    pic: &mut [u8],
    width: usize,
    height: usize,
    stack: &mut [u32],
    table: Table,
) -> Marks
    requires { InWork pic.old width height (length stack.old) table }
    ensures { Searches width height (all_cuts pic.old width height) pic.old table [] (outcome result) pic.new result.table × Laid result }
{
    let mut marks = none(Ok(()), table);
    let mut y = 0;
    let mut scan = LineScanner::new();
    while let Some((line, at, next)) = next_cut(pic, width, height, y, scan) {
        let ring = get_region(pic, width, height, stack, marks.table, at.right, line);
        let among = ring.table;
        let stone = get_region(pic, width, height, stack, among, at.stone, line);
        let after = stone.table;
        let outer = ring.found;
        let inner = stone.found;
        marks.table = after;
        match mark_at(pic, width, height, stack, at, line, outer, inner, marks.n) {
            Ok(Some(found)) => {
                marks = with_stone(marks, found);
            }
            Ok(None) => {}
            Err(why) => {
                return none(Err(why), after);
            }
        }
        y = line;
        scan = next;
    }
    marks
}
