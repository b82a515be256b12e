// Fits: a picture, a table, the entries of the stack, the bytes of the scratch, and three stones; then the number of the refusal, 100 for no grid, or 0 with
// the grid's size and coefficients; then the sums of the picture, and the table.
use crate::checks::{
    Check, expect, expect_perspective, expect_picture, expect_refusal, has_ended, start,
};
use crate::pictures::{Drawn, draw};
use crate::stones::read_group;
use crate::tables::{expect_table, read_table};
use crate::words::read_word;
use fit::fit_group;
use grids::SkewedGridLocation;
use refusals::Refusal;
use table::Table;

// The next words are to say a grid: its size and its coefficients.
fn expect_grid(text: &[u8], check: Check, grid: SkewedGridLocation) -> Check {
    let c = grid.c;
    let found = expect(text, check, 0);
    let size = expect(text, found, grid.size as u64);
    expect_perspective(text, size, c)
}

// The next words are to say what a group comes to.
fn expect_fit(
    text: &[u8],
    check: Check,
    fit: Result<Option<SkewedGridLocation>, Refusal>,
) -> Check {
    match fit {
        Ok(Some(grid)) => expect_grid(text, check, grid),
        Ok(None) => expect(text, check, 256),
        Err(why) => expect_refusal(text, check, why),
    }
}

// Fits the group that stands here, on the picture that was drawn.
fn fit_drawn(
    text: &[u8],
    drawn: Drawn,
    t: Table,
    at: usize,
    pic: &mut [u8],
    stack: &mut [u32],
    scratch: &mut [u8],
) -> bool {
    let here = read_group(text, at);
    let group = here.value;
    let fitted = fit_group(pic, drawn.width, drawn.height, stack, scratch, t, group);
    let fit = fitted.fit;
    let left = fitted.table;
    let told = expect_fit(text, start(here.next), fit);
    let painted = expect_picture(text, told, pic);
    has_ended(text, expect_table(text, painted, left))
}

// Whether a fit answers as recorded.
pub fn same_fit(text: &[u8], pic: &mut [u8], stack: &mut [u32], scratch: &mut [u8]) -> bool {
    let drawn = draw(text, 0, pic);
    let n = drawn.n;
    let listed = read_table(text, drawn.next);
    let t = listed.value;
    let entries = read_word(text, listed.next);
    let kept = read_word(text, entries.next);
    let lent = entries.value as usize;
    let room = kept.value as usize;
    if n > pic.len() {
        return false;
    }
    if lent > stack.len() {
        return false;
    }
    if room > scratch.len() {
        return false;
    }
    fit_drawn(
        text,
        drawn,
        t,
        kept.next,
        &mut pic[..n],
        &mut stack[..lent],
        &mut scratch[..room],
    )
}
