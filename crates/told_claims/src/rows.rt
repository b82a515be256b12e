// The rows of a piece, in the order in which a fill meets them.
ghost use Rattle.std.specs.Prelude.{◌≡◌, [], ◌+◌, ◌*◌, ◌≤◌, length, set};
ghost use Rattle.refusals.specs.First.{first, sound};
ghost use Rattle.claim.specs.Tests.{claim_tests};
ghost use Rattle.fill.specs.Fill.{Fillable};
ghost use Rattle.told_claims.specs.Rows.{Listed, Lists};

use fill::step::{Stepped, fill_step, seed};
use pieces::Row;

// A row's left and right end and its line, from the place `at` on.
fn put_row(row: Row, at: usize, out: &mut [usize])
    requires { at + 3 ≤ length out.old }
    ensures { out.new ≡ set (set (set out.old at row.left) (at + 1) row.right) (at + 2) row.y }
{
    out[at] = row.left;
    out[at + 1] = row.right;
    out[at + 2] = row.y;
}

// Paints the piece of (x, y), and writes each row that it meets. Answers how many numbers it wrote.
fn list_rows(
    pic: &mut [u8],
    w: usize,
    h: usize,
    stack: &mut [u32],
    x: usize,
    y: usize,
    to: u8,
    out: &mut [usize],
) -> usize
    requires fact_1 { Fillable pic.old w h x y to (length stack.old) }
    requires fact_2 { 3 * (w * h) ≤ length out.old }
    ensures { Listed pic.old w h x y to pic.new out.old result out.new }
{
    let from = seed(pic, w, h, x, y, stack);
    let mut sp = 1;
    let mut at = 0;
    // The stack decides when it ends. A finder (crate corners) is a plain value, handed on from row to row; here the rows go into a slice that is lent.
    while sp > 0 {
        match fill_step(pic, w, h, from, to, stack, sp) {
            Stepped::Met(row, top) => {
                put_row(row, at, out);
                at += 3;
                sp = top;
            }
            Stepped::Passed(top) => {
                sp = top;
            }
        }
    }
    at
}

// The same, once there are places for a row a pixel and for their count.
fn put_rows(
    pic: &mut [u8],
    width: usize,
    height: usize,
    stack: &mut [u32],
    x: usize,
    y: usize,
    target: u8,
    rows: &mut [usize],
    count: &mut [usize],
) -> u8
    requires { first (claim_tests pic.old width height (length stack.old) x y target) sound ≡ sound }
    ensures { Lists pic.old width height (length stack.old) x y target pic.new rows.old rows.new count.old count.new result }
{
    if rows.len() < 3 * (width * height) {
        return 3;
    }
    if count.len() < 1 {
        return 3;
    }
    let written = list_rows(pic, width, height, stack, x, y, target, rows);
    count[0] = written / 3;
    0
}

// Paints as a claim does and lists the rows of the piece; it refuses what a claim refuses.
pub fn rows(
    pic: &mut [u8],
    width: usize,
    height: usize,
    stack: &mut [u32],
    x: usize,
    y: usize,
    target: u8,
    rows: &mut [usize],
    count: &mut [usize],
) -> u8
    ensures { Lists pic.old width height (length stack.old) x y target pic.new rows.old rows.new count.old count.new result }
{
    match claim::judge(pic, width, height, stack.len(), x, y, target) {
        Err(why) => u8::from(why),
        Ok(()) => put_rows(pic, width, height, stack, x, y, target, rows, count),
    }
}
