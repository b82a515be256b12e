ghost use Rattle.std.specs.Prelude.{◌≡◌, ◌+◌, ◌≤◌, length, take};
ghost use mathlib.Core.List.{zip_with};
ghost use Rattle.refusals.specs.Limits.{longest_side};
ghost use Rattle.picture.specs.Sides.{Sized};
ghost use Rattle.prepare.specs.Threshold.{span as span_of, shade as shadeOf, shaded, thresholded};
ghost use Rattle.prepare.specs.Run.{Ready, Columns, ends_of};

use crate::averages::{Ends, run};

// The byte of a pixel: black when below sum x 95 / (200 x s). With no division, (pixel + 1) x 40 x s <= sum x 19.
fn shade(pixel: u8, s: u16, sum: u16) -> u8
    requires { (1 ≤ s) × (s ≤ 100) }
    ensures { result ≡ shadeOf s pixel sum }
{
    let limit = 40 * s;
    if (pixel as u32 + 1) * (limit as u32) <= (sum as u32) * 19 {
        1
    } else {
        0
    }
}

// A row in black and white, by the averages that are kept for its columns.
fn shade_row(row: &mut [u8], s: u16, lefts: &[u16], rights: &[u16])
    requires { (1 ≤ s) × (s ≤ 100) × Columns row.old lefts.now rights.now }
    ensures { row.new ≡ zip_with (shadeOf s) row.old (zip_with ◌+◌ (take (length row.old) lefts.now) (take (length row.old) rights.now)) }
{
    for (x, pixel) in row.iter_mut().enumerate() {
        let sum = lefts[x] + rights[x];
        *pixel = shade(*pixel, s, sum);
    }
}

// A row in black and white, with the averages that it meets and those that it leaves.
fn threshold_row(
    row: &mut [u8],
    s: u16,
    left: u64,
    right: u64,
    lefts: &mut [u16],
    rights: &mut [u16],
) -> Ends
    requires { Ready s left right row.old lefts.old rights.old }
    ensures { (result ≡ ends_of s left right row.old) × (row.new ≡ shaded s left right row.old) }
{
    let ends = run(row, s, left, right, lefts, rights);
    shade_row(row, s, lefts, rights);
    ends
}

// The span of an average.
fn span(width: usize) -> u16
    requires { width ≤ longest_side }
    ensures { result ≡ span_of width }
{
    if width < 16 {
        return 1;
    }
    (width / 8) as u16
}

// Room for a row's averages.
fn columns() -> [u16; 800]
    ensures { length result ≡ longest_side }
{
    [0u16; 800]
}

// The picture in black and white. From row to row the averages change sides.
pub fn threshold(pic: &mut [u8], width: usize, height: usize)
    requires { Sized width height (length pic.old) }
    ensures { pic.new ≡ thresholded width height pic.old }
{
    let s = span(width);
    let mut lefts = columns();
    let mut rights = columns();
    let mut left: u64 = 0;
    let mut right: u64 = 0;
    for y in 0..height {
        let base = y * width;
        let row = &mut pic[base..base + width];
        let ends = threshold_row(row, s, left, right, &mut lefts, &mut rights);
        left = ends.right;
        right = ends.left;
    }
}
