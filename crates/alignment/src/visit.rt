// A visit: what the place that the spiral has come to makes of the pass.
ghost use Rattle.std.specs.Prelude.{◌≡◌, true, ◌<◌, ◌≤◌, length};
ghost use Rattle.refusals.specs.Limits.{farthest};
ghost use Rattle.picture.specs.Sides.{Roomy};
ghost use Rattle.table.specs.Sound.{sound_test};
ghost use Rattle.regions.specs.Found.{meaning};
ghost use Rattle.alignment.specs.Visit.{place_at, size_like, Comes, VisitsPixel, Visits};

use points::Point;
use refusals::Refusal;
use regions::{ColoredRegion, get_region, is_unlisted};
use table::Table;

// What a visit comes to where nothing refuses: the pass moves on, it skips its move, or the place is the answer.
#[derive(Clone, Copy)]
pub enum Visit {
    Moves,
    Stays,
    Here,
}

// What a visit comes to, or why it refuses, beside the table that it leaves.
#[derive(Clone, Copy)]
pub struct Visited {
    pub visit: Result<Visit, Refusal>,
    pub table: Table,
}

// Where the coordinates (x, y) lie in a picture of these sides.
pub fn place_at(x: i32, y: i32, width: usize, height: usize) -> Option<(usize, usize)>
    ensures { result ≡ place_at width height x y }
{
    if x < 0 {
        return None;
    }
    if y < 0 {
        return None;
    }
    let column = x as usize;
    let line = y as usize;
    if column >= width {
        return None;
    }
    if line >= height {
        return None;
    }
    Some((column, line))
}

// Whether a count of pixels is of the estimate's size.
pub fn is_size_like(count: u32, estimate: usize) -> bool
    requires { estimate ≤ farthest }
    ensures { result ≡ size_like estimate count }
{
    let pixels = count as usize;
    if pixels < estimate / 2 {
        return false;
    }
    pixels <= estimate * 2
}

// What a lookup's answer makes of a visit.
fn visit_of(region: Result<ColoredRegion, Refusal>, estimate: usize) -> Result<Visit, Refusal>
    requires { estimate ≤ farthest }
    ensures { Comes estimate (meaning region) result }
{
    match region? {
        ColoredRegion::Claimed(_) => Ok(Visit::Stays),
        ColoredRegion::Unclaimed(r) => {
            if is_size_like(r.entry.px, estimate) {
                return Ok(Visit::Here);
            }
            Ok(Visit::Moves)
        }
    }
}

// Visits the pixel (x, y) of the picture.
fn visit_pixel(
    pic: &mut [u8],
    width: usize,
    height: usize,
    stack: &mut [u32],
    table: Table,
    x: usize,
    y: usize,
    estimate: usize,
) -> Visited
    requires { Roomy width height (length pic.old) (length stack.old) × (sound_test table width height ≡ true) × (x < width) × (y < height) × (estimate ≤ farthest) }
    ensures { VisitsPixel pic.old width height table estimate x y result.visit pic.new result.table }
{
    let base = y * width;
    let byte = pic[base + x];
    if byte == 0 {
        return Visited {
            visit: Ok(Visit::Moves),
            table: table,
        };
    }
    if is_unlisted(byte, table.n) {
        return Visited {
            visit: Err(Refusal::Number),
            table: table,
        };
    }
    let looked = get_region(pic, width, height, stack, table, x, y);
    let region = looked.found;
    let after = looked.table;
    Visited {
        visit: visit_of(region, estimate),
        table: after,
    }
}

// Visits a place, which may lie beside the picture.
pub fn visit_place(
    pic: &mut [u8],
    width: usize,
    height: usize,
    stack: &mut [u32],
    table: Table,
    at: Point,
    estimate: usize,
) -> Visited
    requires { Roomy width height (length pic.old) (length stack.old) × (sound_test table width height ≡ true) × (estimate ≤ farthest) }
    ensures { Visits pic.old width height table estimate at result.visit pic.new result.table }
{
    match place_at(at.x, at.y, width, height) {
        Some((x, y)) => visit_pixel(pic, width, height, stack, table, x, y, estimate),
        None => Visited {
            visit: Ok(Visit::Moves),
            table: table,
        },
    }
}
