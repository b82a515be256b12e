// Pictures of a recorded case: hex digits, four pixels of one bit to a digit, or two digits to a byte.
ghost use Rattle.std.specs.Prelude.{◌≡◌, ◌≤◌, length};
ghost use Rattle.vectors.specs.Pictures.{bit_of, byte_of, bit_at, byte_at, Shows};

use crate::words::{digit_at, read_word};

// The bit of a digit: bit 0 is the highest of four.
fn bit_of(digit: u64, k: usize) -> u8
    ensures { result ≡ bit_of digit k }
{
    if k == 0 {
        return (digit / 8 % 2) as u8;
    }
    if k == 1 {
        return (digit / 4 % 2) as u8;
    }
    if k == 2 {
        return (digit / 2 % 2) as u8;
    }
    (digit % 2) as u8
}

// The byte of two digits.
fn byte_of(high: u64, low: u64) -> u8
    requires { (high ≤ 16) × (low ≤ 16) }
    ensures { result ≡ byte_of high low }
{
    ((high * 16 + low) % 256) as u8
}

// A picture of bits.
pub fn draw_bits(text: &[u8], pic: &mut [u8])
    requires { length pic.old ≤ 640000 }
    ensures { Shows (bit_at text.now) (length pic.old) pic.new }
{
    for i in 0..pic.len() {
        let digit = digit_at(text, i / 4);
        pic[i] = bit_of(digit, i % 4);
    }
}

// A picture of bytes.
pub fn draw_bytes(text: &[u8], pic: &mut [u8])
    requires { length pic.old ≤ 640000 }
    ensures { Shows (byte_at text.now) (length pic.old) pic.new }
{
    for i in 0..pic.len() {
        let high = digit_at(text, i * 2);
        let low = digit_at(text, i * 2 + 1);
        pic[i] = byte_of(high, low);
    }
}

// A picture as it stands in a case: its sides, how many pixels it has, and where its digits end.
#[derive(Clone, Copy)]
pub struct Drawn {
    pub width: usize,
    pub height: usize,
    pub n: usize,
    pub next: usize,
}

// Draws the digits behind the separator at a place: one bit a pixel where the form is 1, and one byte a pixel otherwise.
fn draw_digits(text: &[u8], at: usize, form: u64, pic: &mut [u8]) -> usize
    requires { length pic.old ≤ 640000 }
{
    if at >= text.len() {
        return at;
    }
    if at > 1000000 {
        return at;
    }
    let first = at + 1;
    let n = pic.len();
    if form == 1 {
        draw_bits(&text[first..], pic);
        return first + (n + 3) / 4;
    }
    draw_bytes(&text[first..], pic);
    first + n * 2
}

// Draws the picture of a case: width, height, the number of pixels, the form, and the digits. It has no pixels where it is too large.
pub fn draw(text: &[u8], at: usize, pic: &mut [u8]) -> Drawn {
    let width = read_word(text, at);
    let height = read_word(text, width.next);
    let pixels = read_word(text, height.next);
    let form = read_word(text, pixels.next);
    let n = pixels.value as usize;
    let mut drawn = Drawn {
        width: width.value as usize,
        height: height.value as usize,
        n: 0,
        next: form.next,
    };
    if n > 640000 {
        return drawn;
    }
    if n > pic.len() {
        return drawn;
    }
    drawn.n = n;
    drawn.next = draw_digits(text, form.next, form.value, &mut pic[..n]);
    drawn
}
