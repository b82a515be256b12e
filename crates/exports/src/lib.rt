// The library's face for C and for Rust. A call returns 0 when it has written its values into the slice that it was lent, 255 when
// there is nothing to be found, and else the number of a refusal (document 01), with the slice as it was. No call asks anything of
// its caller but that each pointer with its length is a slice. What each call tells is defined in the crates `told_..`.
#![tactic(auto)]

ghost use Rattle.std.specs.Prelude.{◌≡◌, length};
ghost use Rattle.refusals.specs.First.{first, sound};
ghost use Rattle.picture.specs.Bitmap.{accept_tests};
ghost use Rattle.told.specs.Answer.{Told};
ghost use Rattle.told_points.specs.Answers.{round_answer, create_answer, map_answer, unmap_answer};
ghost use Rattle.told_lines.specs.Answers.{cross_answer, scan_answer};
ghost use Rattle.told_pictures.specs.Pictures.{verdict_number, Thresholds};
ghost use Rattle.told_claims.specs.Claims.{Claims};
ghost use Rattle.told_claims.specs.Rows.{Lists};

use told_claims::{claims, rows};
use told_lines::{line, scan};
use told_points::{perspective, whole};

// The whole number nearest to x, halves away from zero; 13 where no i32 holds it.
#[unsafe(no_mangle)]
pub extern "C" fn elmetzhur_round(x: f64, out: &mut [i32]) -> u8
    ensures { Told (round_answer x (length out.old)) out.old result out.new }
{
    whole::round(x, out)
}

// The perspective that takes the corners of a w by h rectangle to four points, lent as x0 y0 .. x3 y3: eight coefficients; 255 where
// it is flat.
#[unsafe(no_mangle)]
pub extern "C" fn elmetzhur_create(corners: &[i32], w: f64, h: f64, out: &mut [f64]) -> u8
    ensures { Told (create_answer corners.now w h (length out.old)) out.old result out.new }
{
    perspective::create(corners, w, h, out)
}

// The pixel's place, x and y, at which the grid's point (u, v) lies under a perspective, lent as its eight coefficients; 13 where no
// i32 holds a coordinate.
#[unsafe(no_mangle)]
pub extern "C" fn elmetzhur_map(c: &[f64], u: f64, v: f64, out: &mut [i32]) -> u8
    ensures { Told (map_answer c.now u v (length out.old)) out.old result out.new }
{
    perspective::map(c, u, v, out)
}

// The grid's point, u and v, that lies at (x, y).
#[unsafe(no_mangle)]
pub extern "C" fn elmetzhur_unmap(c: &[f64], x: i32, y: i32, out: &mut [f64]) -> u8
    ensures { Told (unmap_answer c.now x y (length out.old)) out.old result out.new }
{
    perspective::unmap(c, x, y, out)
}

// Where the line through the first two points crosses the one through the last two, lent as x0 y0 .. x3 y3: x and y, each cut toward
// zero; 255 where they don't cross. The points are pixels of a picture, else 12.
#[unsafe(no_mangle)]
pub extern "C" fn elmetzhur_line_intersect(points: &[i32], out: &mut [i32]) -> u8
    ensures { Told (cross_answer points.now (length out.old)) out.old result out.new }
{
    line::line_intersect(points, out)
}

// Every point of the scan from one end to the other, x before y. No end is further out than 10,000, else 12.
#[unsafe(no_mangle)]
pub extern "C" fn elmetzhur_scan(x0: i32, y0: i32, x1: i32, y1: i32, out: &mut [i32]) -> u8
    ensures { Told (scan_answer (record { x = x0; y = y0 }) (record { x = x1; y = y1 }) (length out.old)) out.old result out.new }
{
    scan::scan(x0, y0, x1, y1, out)
}

// Whether a picture, a byte for each pixel, line by line, is a bitmap, of bytes 0 and 1: 0, or the refusal 1, 2 or 4.
#[unsafe(no_mangle)]
pub extern "C" fn elmetzhur_accept(pic: &[u8], width: usize, height: usize) -> u8
    ensures { result ≡ verdict_number (first (accept_tests pic.now width height) sound) }
{
    told_pictures::accept(pic, width, height)
}

// Makes a grey picture, 0 for black, a bitmap, in place: 0, or the refusal 1 or 2.
#[unsafe(no_mangle)]
pub extern "C" fn elmetzhur_prepare(pic: &mut [u8], width: usize, height: usize) -> u8
    ensures { Thresholds width height pic.old result pic.new }
{
    told_pictures::prepare(pic, width, height)
}

// Paints the piece of (x, y) with the target, 2, 3 or 4, and tells the rows met, the pixels painted and the stack entries pushed; or
// the refusal 1, 2, 3, 5, 8, 6 or 7, with the picture as it was. The stack has an entry for each pixel.
#[unsafe(no_mangle)]
pub extern "C" fn elmetzhur_claim(
    pic: &mut [u8],
    width: usize,
    height: usize,
    stack: &mut [u32],
    x: usize,
    y: usize,
    target: u8,
    counts: &mut [usize],
) -> u8
    ensures { Claims pic.old width height (length stack.old) x y target pic.new counts.old result counts.new }
{
    claims::claim(pic, width, height, stack, x, y, target, counts)
}

// Paints as a claim does, and lists the rows of the piece in the order in which a fill meets them: left, right and line of each, and
// how many they are. Refuses what a claim refuses; `list` has three places for each pixel, `count` has one.
#[unsafe(no_mangle)]
pub extern "C" fn elmetzhur_rows(
    pic: &mut [u8],
    width: usize,
    height: usize,
    stack: &mut [u32],
    x: usize,
    y: usize,
    target: u8,
    list: &mut [usize],
    count: &mut [usize],
) -> u8
    ensures { Lists pic.old width height (length stack.old) x y target pic.new list.old list.new count.old count.new result }
{
    rows::rows(pic, width, height, stack, x, y, target, list, count)
}
