// Program `locate` (document 01): reads a text bitmap on standard input, and prints the symbols that it finds there.
#![tactic(auto)]

ghost use Rattle.std.specs.Prelude.{◌≡◌, ◌≤◌, length, take};
ghost use Rattle.std.specs.Counts.{IsPrefixLen};
ghost use Rattle.netpbm.specs.Form.{most_pixels};
ghost use Rattle.locate.specs.Prints.{Responds};

mod finding;
mod reading;

use std::io;
use std::io::{Read, Write};

// A byte a pixel: for the picture, and for the copy that groups are tried on.
fn room() -> [u8; 16384]
    ensures { length result ≡ most_pixels }
{
    [0u8; 16384]
}

// Reads the input, and makes the text that is printed of it.
fn respond<R: Read>(input: &mut R, out: &mut [u8]) -> usize
    requires { 7374 ≤ length out.old }
    ensures { Responds (take result out.new) × IsPrefixLen result out.new }
{
    let mut pixels = room();
    let read = reading::read(input, &mut pixels);
    finding::answer(read, &mut pixels, out)
}

// Writes that text.
fn main(rt: HostRuntime) -> io::Result<()> {
    let mut out = [0u8; 65536];
    let n = respond(&mut rt.stdin(), &mut out);
    rt.stdout().write_all(&out[..n])
}
