// Input read into a buffer that the caller lends.
#![tactic(auto)]

ghost use Rattle.std.specs.Counts.{IsPrefixLen};

use std::io::Read;

// The next bytes, at the start of the buffer; none where the input has ended or the read failed.
fn read_some<R: Read>(input: &mut R, buf: &mut [u8]) -> usize
    ensures { IsPrefixLen result buf.new }
{
    input.read(buf).unwrap_or(0)
}

// Reads until the buffer is full, the input ends or a read fails, and answers how many bytes now stand at its start.
pub fn read_full<R: Read>(input: &mut R, buf: &mut [u8]) -> usize
    ensures { IsPrefixLen result buf.new }
{
    let mut done = 0;
    // A loop with a count of its own: each read says how many bytes it brings, so no range of places is known before.
    while done < buf.len() {
        let more = read_some(input, &mut buf[done..]);
        if more == 0 {
            return done;
        }
        done += more;
    }
    done
}
