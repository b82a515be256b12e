ghost use Rattle.std.specs.Prelude.{◌≡◌, cond, ◌<◌, length};
ghost use Rattle.netpbm.specs.Form.{most_pixels};
ghost use Rattle.netpbm.specs.Machine.{in_width, in_height, sized, takes_pixel, in_pixels, kept_in, stepped, kept, ended_at, Below, Within, Bounded};

use crate::bytes::{is_bit, is_space};
use crate::{Body, Number, Reader, Sides};

// A stage that a byte leads to, or the form broken.
fn reach(holds: bool, next: Reader) -> Reader
    ensures { result ≡ cond holds next Reader.Broken }
{
    if holds { next } else { Reader::Broken }
}

// Another digit of the width.
fn in_width(width: Number, byte: u8) -> Reader
    requires { Below width }
    ensures { result ≡ in_width width byte }
{
    if width.takes(byte) {
        Reader::Width(width.longer(byte))
    } else {
        Reader::Broken
    }
}

// Another digit of the height.
fn in_height(width: usize, height: Number, byte: u8) -> Reader
    requires { Below height }
    ensures { result ≡ in_height width height byte }
{
    if height.takes(byte) {
        Reader::Height(width, height.longer(byte))
    } else {
        Reader::Broken
    }
}

// The header is read: the pixels come next, unless they are too many.
fn sized(width: usize, height: usize) -> Reader
    requires { (width < 100000) × (height < 100000) }
    ensures { result ≡ sized width height }
{
    if width * height > 16384 {
        return Reader::Broken;
    }
    Reader::Pixels(Body {
        width: width,
        height: height,
        count: 0,
    })
}

// Whether a byte is the next pixel.
fn takes_pixel(body: Body, byte: u8) -> bool
    requires { Within body }
    ensures { result ≡ takes_pixel body byte }
{
    if body.count >= body.width * body.height {
        return false;
    }
    is_bit(byte)
}

// One pixel more.
fn in_pixels(body: Body, byte: u8) -> Reader
    requires { Within body }
    ensures { result ≡ in_pixels body byte }
{
    if takes_pixel(body, byte) {
        Reader::Pixels(Body {
            width: body.width,
            height: body.height,
            count: body.count + 1,
        })
    } else {
        Reader::Broken
    }
}

// A byte among the pixels goes to its place, if it is one.
fn keep_in(body: Body, byte: u8, pixels: &mut [u8])
    requires { Within body × (length pixels.old ≡ most_pixels) }
    ensures { pixels.new ≡ kept_in body byte pixels.old }
{
    if !takes_pixel(body, byte) {
        return;
    }
    let at = body.count;
    pixels[at] = byte - b'0';
}

// What a byte puts among the pixels.
pub fn keep(reader: Reader, byte: u8, pixels: &mut [u8])
    requires { Bounded reader × (length pixels.old ≡ most_pixels) }
    ensures { pixels.new ≡ kept reader byte pixels.old }
{
    match reader {
        Reader::Pixels(body) => keep_in(body, byte, pixels),
        _ => {}
    }
}

// The state after one more byte.
pub fn step(reader: Reader, byte: u8) -> Reader
    requires { Bounded reader }
    ensures { result ≡ stepped reader byte }
{
    let white = is_space(byte);
    match reader {
        Reader::Nothing => reach(byte == b'P', Reader::Letter),
        Reader::Letter => reach(byte == b'1', Reader::Magic),
        Reader::Magic => reach(white, Reader::BeforeWidth),
        Reader::BeforeWidth => if white {
            Reader::BeforeWidth
        } else {
            in_width(Number::none(), byte)
        },
        Reader::Width(width) => if white {
            Reader::BeforeHeight(width.value)
        } else {
            in_width(width, byte)
        },
        Reader::BeforeHeight(width) => if white {
            Reader::BeforeHeight(width)
        } else {
            in_height(width, Number::none(), byte)
        },
        Reader::Height(width, height) => if white {
            sized(width, height.value)
        } else {
            in_height(width, height, byte)
        },
        Reader::Pixels(body) => if white {
            Reader::Pixels(body)
        } else {
            in_pixels(body, byte)
        },
        Reader::Broken => Reader::Broken,
    }
}

// What a file is that ends among the pixels: a bitmap, if it has them all.
pub fn ended(body: Body) -> Option<Sides>
    requires { Within body }
    ensures { result ≡ ended_at body }
{
    if body.count == body.width * body.height {
        Some(Sides {
            width: body.width,
            height: body.height,
        })
    } else {
        None
    }
}
