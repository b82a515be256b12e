// Claims: a picture, the entries of the stack, x, y and the target; then the number of the refusal, or 0 and the three counts; then the sums of the picture.
use crate::checks::{Check, expect, expect_picture, expect_refusal, has_ended, start};
use crate::pictures::{Drawn, draw};
use crate::words::read_word;
use claim::claim;
use fill::paint::Counts;
use refusals::Refusal;

// The next words are to say three counts.
fn expect_counts(text: &[u8], check: Check, counts: Counts) -> Check {
    let done = expect(text, check, 0);
    let rows = expect(text, done, counts.rows as u64);
    let pixels = expect(text, rows, counts.pixels as u64);
    expect(text, pixels, counts.pushes as u64)
}

// The next words are to say what a claim answers.
fn expect_claimed(text: &[u8], check: Check, answer: Result<Counts, Refusal>) -> Check {
    match answer {
        Ok(counts) => expect_counts(text, check, counts),
        Err(why) => expect_refusal(text, check, why),
    }
}

// Claims the piece that the next three words name, and compares the answer.
pub fn claim_next(
    text: &[u8],
    check: Check,
    pic: &mut [u8],
    width: usize,
    height: usize,
    stack: &mut [u32],
) -> Check {
    let x = read_word(text, check.at);
    let y = read_word(text, x.next);
    let target = read_word(text, y.next);
    let byte = (target.value % 256) as u8;
    let answer = claim(
        pic,
        width,
        height,
        stack,
        x.value as usize,
        y.value as usize,
        byte,
    );
    let here = Check {
        at: target.next,
        same: check.same,
    };
    expect_claimed(text, here, answer)
}

// Claims in the picture that was drawn.
fn claim_drawn(text: &[u8], drawn: Drawn, at: usize, pic: &mut [u8], stack: &mut [u32]) -> bool {
    let told = claim_next(text, start(at), pic, drawn.width, drawn.height, stack);
    let left = expect_picture(text, told, pic);
    has_ended(text, left)
}

// Whether a claim answers as recorded.
pub fn same_claim(text: &[u8], pic: &mut [u8], stack: &mut [u32]) -> bool {
    let drawn = draw(text, 0, pic);
    let n = drawn.n;
    let entries = read_word(text, drawn.next);
    let lent = entries.value as usize;
    if n > pic.len() {
        return false;
    }
    if lent > stack.len() {
        return false;
    }
    claim_drawn(text, drawn, entries.next, &mut pic[..n], &mut stack[..lent])
}
