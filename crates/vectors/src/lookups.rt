// Runs of lookups and claims: a picture, a table, the entries of the stack, and the number of calls; for each call 0 for a lookup or 1 for a claim, its
// words, and what it answers; then the sums of the picture, and the table.
use crate::checks::{Check, expect, expect_picture, expect_refusal, has_ended, start};
use crate::claims::claim_next;
use crate::pictures::{Drawn, draw};
use crate::tables::{expect_table, read_table};
use crate::words::read_word;
use picture::PixelColor;
use refusals::Refusal;
use regions::{ColoredRegion, Region, look_up};
use table::Table;

// A run so far.
#[derive(Clone, Copy)]
struct Run {
    table: Table,
    check: Check,
}

// A colour's byte, and 256 more.
fn colour_word(c: PixelColor) -> u64 {
    match c {
        PixelColor::White => 256,
        PixelColor::Black => 257,
        PixelColor::CapStone => 258,
        PixelColor::Alignment => 259,
        PixelColor::Tmp1 => 260,
        PixelColor::Discarded(k) => 261 + k as u64,
    }
}

// The next words are to say an unclaimed region: 0, its number and its entry.
fn expect_region(text: &[u8], check: Check, region: Region) -> Check {
    let entry = region.entry;
    let found = expect(text, check, 0);
    let number = expect(text, found, region.number as u64);
    let x = expect(text, number, entry.x as u64);
    let y = expect(text, x, entry.y as u64);
    expect(text, y, entry.px as u64)
}

// The next words are to say what a lookup finds.
fn expect_found(text: &[u8], check: Check, found: Result<ColoredRegion, Refusal>) -> Check {
    match found {
        Ok(ColoredRegion::Claimed(c)) => expect(text, check, colour_word(c)),
        Ok(ColoredRegion::Unclaimed(region)) => expect_region(text, check, region),
        Err(why) => expect_refusal(text, check, why),
    }
}

// Looks up the pixel that the next two words name, and compares the answer.
fn look_next(
    text: &[u8],
    run: Run,
    pic: &mut [u8],
    width: usize,
    height: usize,
    stack: &mut [u32],
) -> Run {
    let check = run.check;
    let t = run.table;
    let x = read_word(text, check.at);
    let y = read_word(text, x.next);
    let looked = look_up(
        pic,
        width,
        height,
        stack,
        t,
        x.value as usize,
        y.value as usize,
    );
    let here = Check {
        at: y.next,
        same: check.same,
    };
    let found = looked.found;
    let left = looked.table;
    let told = expect_found(text, here, found);
    Run {
        table: left,
        check: told,
    }
}

// The next call.
fn call_next(
    text: &[u8],
    run: Run,
    pic: &mut [u8],
    width: usize,
    height: usize,
    stack: &mut [u32],
) -> Run {
    let check = run.check;
    let t = run.table;
    let kind = read_word(text, check.at);
    let here = Check {
        at: kind.next,
        same: check.same,
    };
    if kind.value == 0 {
        let at = Run {
            table: t,
            check: here,
        };
        return look_next(text, at, pic, width, height, stack);
    }
    let told = claim_next(text, here, pic, width, height, stack);
    Run {
        table: t,
        check: told,
    }
}

// So many calls.
fn call_all(
    text: &[u8],
    first: Run,
    count: u64,
    pic: &mut [u8],
    width: usize,
    height: usize,
    stack: &mut [u32],
) -> Run {
    let mut run = first;
    for _ in 0..count {
        run = call_next(text, run, pic, width, height, stack);
    }
    run
}

// The run in the picture that was drawn.
fn run_drawn(
    text: &[u8],
    drawn: Drawn,
    t: Table,
    at: usize,
    pic: &mut [u8],
    stack: &mut [u32],
) -> bool {
    let count = read_word(text, at);
    let first = Run {
        table: t,
        check: start(count.next),
    };
    let run = call_all(
        text,
        first,
        count.value,
        pic,
        drawn.width,
        drawn.height,
        stack,
    );
    let left = run.table;
    let told = run.check;
    let painted = expect_picture(text, told, pic);
    has_ended(text, expect_table(text, painted, left))
}

// Whether a run of lookups and claims answers as recorded.
pub fn same_run(text: &[u8], pic: &mut [u8], stack: &mut [u32]) -> bool {
    let drawn = draw(text, 0, pic);
    let n = drawn.n;
    let listed = read_table(text, drawn.next);
    let t = listed.value;
    let entries = read_word(text, listed.next);
    let lent = entries.value as usize;
    if n > pic.len() {
        return false;
    }
    if lent > stack.len() {
        return false;
    }
    run_drawn(
        text,
        drawn,
        t,
        entries.next,
        &mut pic[..n],
        &mut stack[..lent],
    )
}
