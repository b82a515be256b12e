// Answers compared with a recorded case, word by word.
ghost use Rattle.std.specs.Prelude.{◌≡◌, true};
ghost use Rattle.std.specs.Float.{binary64};
ghost use Rattle.std.specs.Float.Ieee.{to_bits};
ghost use Rattle.vectors.specs.Checks.{expected, summed_up, ended};

use crate::sums::sum;
use crate::words::{offset, read_word};
use geometry::Perspective;
use points::Point;
use refusals::Refusal;
use std::num::f64_to_bits_with_nan;

// How far a case is compared, and whether all was the same so far.
#[derive(Clone, Copy)]
pub struct Check {
    pub at: usize,
    pub same: bool,
}

// Before the first comparison.
pub fn start(at: usize) -> Check
    ensures { result ≡ record { at = at; same = true } }
{
    Check { at: at, same: true }
}

// The next word is to say this number.
pub fn expect(text: &[u8], check: Check, value: u64) -> Check
    ensures { result ≡ expected text.now check value }
{
    let word = read_word(text, check.at);
    if word.value == value {
        return Check {
            at: word.next,
            same: check.same,
        };
    }
    Check {
        at: word.next,
        same: false,
    }
}

// The next word is to say the bits of a float.
fn expect_float(text: &[u8], check: Check, x: f64) -> Check
    ensures { result ≡ expected text.now check (to_bits binary64 x) }
{
    expect(text, check, f64_to_bits_with_nan(x))
}

// The next words are to say the coordinates of a point.
pub fn expect_point(text: &[u8], check: Check, p: Point) -> Check {
    let x = expect(text, check, offset(p.x));
    expect(text, x, offset(p.y))
}

// The next eight words are to say the coefficients of a perspective.
pub fn expect_perspective(text: &[u8], check: Check, c: Perspective) -> Check {
    let a = expect_float(text, check, c.c0);
    let b = expect_float(text, a, c.c1);
    let d = expect_float(text, b, c.c2);
    let e = expect_float(text, d, c.c3);
    let f = expect_float(text, e, c.c4);
    let g = expect_float(text, f, c.c5);
    let h = expect_float(text, g, c.c6);
    expect_float(text, h, c.c7)
}

// The next word is to say the number of a refusal.
pub fn expect_refusal(text: &[u8], check: Check, why: Refusal) -> Check {
    let number = u8::from(why);
    expect(text, check, number as u64)
}

// The next two words are to say the sums of a picture.
pub fn expect_picture(text: &[u8], check: Check, pic: &[u8]) -> Check
    ensures { result ≡ summed_up text.now pic.now check }
{
    let first = expect(text, check, sum(pic, 65521));
    expect(text, first, sum(pic, 64661))
}

// Whether all was the same, and the case ends here, with a line feed.
pub fn has_ended(text: &[u8], check: Check) -> bool
    ensures { result ≡ ended text.now check }
{
    if !check.same {
        return false;
    }
    let at = check.at;
    if at < text.len() {
        return text[at] == b'\n';
    }
    false
}
