// Cells: a picture, a grid's size and coefficients, and the number of cells; for each its line and its column, and 100 where it is light, 101 where it is
// dark, or the number of the refusal.
use crate::checks::{Check, expect, expect_refusal, has_ended, start};
use crate::pictures::{Drawn, draw};
use crate::stones::read_perspective;
use crate::words::read_word;
use cells::{Cell, read_cell};
use geometry::Perspective;
use refusals::Refusal;

// The next word is to say what a cell is.
fn expect_cell(text: &[u8], check: Check, cell: Result<Cell, Refusal>) -> Check {
    match cell {
        Ok(Cell::Light) => expect(text, check, 256),
        Ok(Cell::Dark) => expect(text, check, 257),
        Err(why) => expect_refusal(text, check, why),
    }
}

// Reads the cell that the next two words name, and compares the answer.
fn read_next(
    text: &[u8],
    check: Check,
    pic: &[u8],
    drawn: Drawn,
    size: u8,
    c: Perspective,
) -> Check {
    let y = read_word(text, check.at);
    let x = read_word(text, y.next);
    let line = (y.value % 256) as u8;
    let column = (x.value % 256) as u8;
    let cell = read_cell(pic, drawn.width, drawn.height, size, c, line, column);
    let here = Check {
        at: x.next,
        same: check.same,
    };
    expect_cell(text, here, cell)
}

// So many cells of the picture that was drawn.
fn read_all(text: &[u8], at: usize, pic: &[u8], drawn: Drawn, size: u8, c: Perspective) -> bool {
    let count = read_word(text, at);
    let mut now = start(count.next);
    for _ in 0..count.value {
        now = read_next(text, now, pic, drawn, size, c);
    }
    has_ended(text, now)
}

// Whether the cells of a grid are as recorded.
pub fn same_cells(text: &[u8], pic: &mut [u8]) -> bool {
    let drawn = draw(text, 0, pic);
    let n = drawn.n;
    let size = read_word(text, drawn.next);
    let seen = read_perspective(text, size.next);
    let c = seen.value;
    let cells = (size.value % 256) as u8;
    if n > pic.len() {
        return false;
    }
    read_all(text, seen.next, &pic[..n], drawn, cells, c)
}
