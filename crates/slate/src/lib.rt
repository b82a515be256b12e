// The operations of document 01, and nothing else. None asks anything: what it can't do it refuses, by the first number that applies, and then it leaves picture and table as at entry.
// What each promises leaves one answer, one picture and one table: `proofs/Determined.antt`.
// An operation that is lent a record (the table, or a list of stones) is passed on as it stands, under the contract that it has in its own crate; the comment names that contract's definition.
#![tactic(auto)]

// What they take and what they answer.
ghost use Rattle.std.specs.Prelude.{◌≡◌, length};
ghost use Rattle.refusals.specs.First.{first, sound};
ghost use Rattle.picture.specs.Verdict.{judged};
ghost use Rattle.picture.specs.Bitmap.{accept_tests};
ghost use Rattle.prepare.specs.Prepared.{Prepared};
ghost use Rattle.table.specs.Table.{empty_table};
ghost use Rattle.claim.specs.Outcome.{Outcome, claimed};
ghost use Rattle.cells.specs.Cell.{meaning, cell_of};

pub use bounds::Grid;
pub use capstones::CapStone;
pub use cells::Cell;
pub use detect::Findings;
pub use fill::paint::Counts;
pub use geometry::Perspective;
pub use grids::SkewedGridLocation;
pub use groups::CapStoneGroup;
pub use match_capstones::{Pair, Ranked};
pub use picture::PixelColor;
pub use points::Point;
pub use refusals::Refusal;
pub use regions::{ColoredRegion, Region};
pub use table::{Entry, Table};

// Makes a grey picture black and white, in place: 1, 2.
pub fn prepare(pic: &mut [u8], width: usize, height: usize) -> Result<(), Refusal>
    ensures { Prepared width height pic.old result pic.new }
{
    prepare::prepare(pic, width, height)
}

// Whether a picture is a bitmap with these sides: 1, 2, 4.
pub fn accept(pic: &[u8], width: usize, height: usize) -> Result<(), Refusal>
    ensures { judged result ≡ first (accept_tests pic.now width height) sound }
{
    picture::accept(pic, width, height)
}

// The region table with no entry, to look up with.
pub fn empty() -> Table
    ensures { result ≡ empty_table }
{
    table::empty()
}

// Claims the piece of (x, y), painting it with the target, and counts its rows, its pixels and the entries pushed: 1, 2, 3, 5, 8, 6, 7.
pub fn claim(
    pic: &mut [u8],
    width: usize,
    height: usize,
    stack: &mut [u32],
    x: usize,
    y: usize,
    target: u8,
) -> Result<Counts, Refusal>
    ensures { Outcome pic.old width height (length stack.old) x y target pic.new (claimed result) }
{
    claim::claim(pic, width, height, stack, x, y, target)
}

// Looks the piece of (x, y) up, with the table lent, and paints it where it is not painted yet: 1, 2, 3, 5, 9, 6, 10. Promises regions `LookPost`.
pub use lookup::look_up;

// The pairs of neighbours of stone idx, the likeliest first, of the stones that are lent: 11, 16. Promises match_capstones `Tells` of `ranking`.
pub use neighbors::rank_neighbors;

// Fits a group of stones, with the table lent: a grid, or no grid, or 1, 2, 3, 9, 12, then as its steps meet them. Promises fit `FitPost`.
pub use fitting::fit_group;

// Whether the cell in column x of line y is dark, in a grid with so many cells along a side and this perspective: 1, 2, 16, 13.
pub fn read_cell(
    pic: &[u8],
    width: usize,
    height: usize,
    size: u8,
    c: Perspective,
    y: u8,
    x: u8,
) -> Result<Cell, Refusal>
    ensures { meaning result ≡ cell_of pic.now width height size c y x }
{
    cells::read_cell(pic, width, height, size, c, y, x)
}

// Finds the stones and the grids of a bitmap, with the table lent: 1, 2, 3, 4, then as its stages meet them. Promises detect `DetectPost`, and `LaidOut` of the array.
pub use detecting::detect;
