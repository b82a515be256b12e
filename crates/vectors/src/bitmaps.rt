// Prepare and accept: a picture, and the number of the refusal, or 0; then the sums of what prepare leaves.
use crate::checks::{Check, expect, expect_picture, expect_refusal, has_ended, start};
use crate::pictures::{Drawn, draw};
use picture::accept;
use prepare::prepare;
use refusals::Refusal;

// The next word is to say a verdict: 0, or the number of a refusal.
pub fn expect_verdict(text: &[u8], check: Check, verdict: Result<(), Refusal>) -> Check {
    match verdict {
        Ok(()) => expect(text, check, 0),
        Err(why) => expect_refusal(text, check, why),
    }
}

// Prepares the picture that was drawn.
fn prepare_drawn(text: &[u8], drawn: Drawn, pic: &mut [u8]) -> bool {
    let verdict = prepare(pic, drawn.width, drawn.height);
    let told = expect_verdict(text, start(drawn.next), verdict);
    let left = expect_picture(text, told, pic);
    has_ended(text, left)
}

// Whether prepare answers as recorded.
pub fn same_prepare(text: &[u8], pic: &mut [u8]) -> bool {
    let drawn = draw(text, 0, pic);
    let n = drawn.n;
    if n > pic.len() {
        return false;
    }
    prepare_drawn(text, drawn, &mut pic[..n])
}

// Whether accept answers as recorded.
pub fn same_accept(text: &[u8], pic: &mut [u8]) -> bool {
    let drawn = draw(text, 0, pic);
    let n = drawn.n;
    if n > pic.len() {
        return false;
    }
    let verdict = accept(&pic[..n], drawn.width, drawn.height);
    let told = expect_verdict(text, start(drawn.next), verdict);
    has_ended(text, told)
}
