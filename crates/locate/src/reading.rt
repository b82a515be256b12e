// Standard input, read to its end.
ghost use Rattle.std.specs.Prelude.{◌≡◌, length};
ghost use Rattle.netpbm.specs.Form.{most_pixels};
ghost use Rattle.netpbm.specs.Reads.{InReading};
ghost use Rattle.locate.specs.Read.{ReadOn, Read};

use inputs::read_full;
use netpbm::{Reader, Sides, feed, finish, start};
use std::io::Read;

// The state after some bytes more, and whether they are the last.
#[derive(Clone, Copy)]
struct Turn {
    reader: Reader,
    last: bool,
}

// Reads the next bytes. Fewer than were asked for are the last: the input has ended, or a read failed, which counts as its end.
fn read_on<R: Read>(input: &mut R, reader: Reader, pixels: &mut [u8]) -> Turn
    requires { InReading pixels.old reader }
    ensures { ReadOn pixels.old reader pixels.new result.reader result.last }
{
    let mut text = [0u8; 65536];
    let got = read_full(input, &mut text);
    let next = feed(reader, &text[..got], pixels);
    Turn {
        reader: next,
        last: got < 65536,
    }
}

// Reads all bytes. Nothing says that an input ends: the reading ends, too, after 2^64 - 1 turns.
fn read_all<R: Read>(input: &mut R, pixels: &mut [u8]) -> Reader
    requires { length pixels.old ≡ most_pixels }
    ensures { InReading pixels.new result }
{
    let mut reader = start();
    for _ in 0..u64::MAX {
        let turn = read_on(input, reader, pixels);
        reader = turn.reader;
        if turn.last {
            return reader;
        }
    }
    reader
}

// What the input is: a bitmap with these sides, whose pixels are now in the room lent, or no file of the form.
pub fn read<R: Read>(input: &mut R, pixels: &mut [u8]) -> Option<Sides>
    requires { length pixels.old ≡ most_pixels }
    ensures { Read pixels.new result }
{
    finish(read_all(input, pixels))
}
