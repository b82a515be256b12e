// Reads a text bitmap, chunk by chunk: `P1`, width, height, then a digit for each pixel (document 01, "Program `locate`").
#![tactic(auto)]

ghost use Rattle.std.specs.Prelude.{◌≡◌};
ghost use Rattle.netpbm.specs.Machine.{Bounded};
ghost use Rattle.netpbm.specs.Reads.{InReading, GoesOn};
ghost use Rattle.netpbm.specs.Told.{Answers};

mod bytes;
mod digits;
mod step;

// A header number as far as it is read: how many digits it has, and what they say.
#[derive(Clone, Copy)]
pub struct Number {
    digits: usize,
    value: usize,
}

// The sides of a bitmap, and how many of its pixels are read.
#[derive(Clone, Copy)]
pub struct Body {
    width: usize,
    height: usize,
    count: usize,
}

// The state of a reading: where it stands in the form, with what it has read of use. `Letter` is after `P`, `Magic` after `P1`.
#[derive(Clone, Copy)]
pub enum Reader {
    Nothing,
    Letter,
    Magic,
    BeforeWidth,
    Width(Number),
    BeforeHeight(usize),
    Height(usize, Number),
    Pixels(Body),
    Broken,
}

// The sides of a bitmap.
#[derive(Clone, Copy)]
pub struct Sides {
    pub width: usize,
    pub height: usize,
}

// The state before the first byte.
pub fn start() -> Reader
    ensures { result ≡ Reader.Nothing }
{
    Reader::Nothing
}

// The next bytes of the file. Each pixel among them goes to its place.
pub fn feed(reader: Reader, chunk: &[u8], pixels: &mut [u8]) -> Reader
    requires { InReading pixels.old reader }
    ensures { GoesOn pixels.old reader chunk.now pixels.new result }
{
    let mut state = reader;
    for &byte in chunk {
        step::keep(state, byte, pixels);
        state = step::step(state, byte);
    }
    state
}

// What the file is, now that it has ended: a bitmap with these sides, or none. Its end serves as white space.
pub fn finish(reader: Reader) -> Option<Sides>
    requires { Bounded reader }
    ensures { Answers reader result }
{
    let end = step::step(reader, b' ');
    match end {
        Reader::Pixels(body) => step::ended(body),
        _ => None,
    }
}
