// Whole pictures: a picture, a table, the entries of the stack and the bytes of the scratch; then the number of the refusal, or 0, the number of stones, the
// number of grids, and for each its size, its coefficients and its bounds; then the sums of the picture, and the table.
use crate::checks::{
    Check, expect, expect_perspective, expect_picture, expect_point, expect_refusal, has_ended,
    start,
};
use crate::pictures::{Drawn, draw};
use crate::tables::{expect_table, read_table};
use crate::words::read_word;
use bounds::Grid;
use detect::{Findings, detect};
use refusals::Refusal;
use table::Table;

// The next words are to say a grid: its size, its coefficients and its bounds.
fn expect_grid(text: &[u8], check: Check, grid: Grid) -> Check {
    let c = grid.c;
    let b0 = grid.bound0;
    let b1 = grid.bound1;
    let b2 = grid.bound2;
    let b3 = grid.bound3;
    let size = expect(text, check, grid.size as u64);
    let seen = expect_perspective(text, size, c);
    let p0 = expect_point(text, seen, b0);
    let p1 = expect_point(text, p0, b1);
    let p2 = expect_point(text, p1, b2);
    expect_point(text, p2, b3)
}

// The next words are to say how many grids there are, and each.
fn expect_grids(text: &[u8], check: Check, grids: [Grid; 31], n: usize) -> Check {
    let mut now = expect(text, check, n as u64);
    for grid in grids.iter().take(n) {
        now = expect_grid(text, now, *grid);
    }
    now
}

// The next words are to say what detect tells.
fn expect_findings(text: &[u8], check: Check, findings: Result<Findings, Refusal>) -> Check {
    match findings {
        Err(why) => expect_refusal(text, check, why),
        Ok(found) => {
            let told = expect(text, check, 0);
            let stones = expect(text, told, found.stones as u64);
            expect_grids(text, stones, found.grids, found.n)
        }
    }
}

// Detects in the picture that was drawn.
fn detect_drawn(
    text: &[u8],
    drawn: Drawn,
    t: Table,
    at: usize,
    pic: &mut [u8],
    stack: &mut [u32],
    scratch: &mut [u8],
) -> bool {
    let detection = detect(pic, drawn.width, drawn.height, stack, scratch, t);
    let findings = detection.findings;
    let left = detection.table;
    let told = expect_findings(text, start(at), findings);
    let painted = expect_picture(text, told, pic);
    has_ended(text, expect_table(text, painted, left))
}

// Whether detect answers as recorded.
pub fn same_detect(text: &[u8], pic: &mut [u8], stack: &mut [u32], scratch: &mut [u8]) -> bool {
    let drawn = draw(text, 0, pic);
    let n = drawn.n;
    let listed = read_table(text, drawn.next);
    let t = listed.value;
    let entries = read_word(text, listed.next);
    let kept = read_word(text, entries.next);
    let lent = entries.value as usize;
    let room = kept.value as usize;
    if n > pic.len() {
        return false;
    }
    if lent > stack.len() {
        return false;
    }
    if room > scratch.len() {
        return false;
    }
    detect_drawn(
        text,
        drawn,
        t,
        kept.next,
        &mut pic[..n],
        &mut stack[..lent],
        &mut scratch[..room],
    )
}
