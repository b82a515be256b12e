// Replays runs of lookups and claims. Standard input holds runs, one after the other: width, height, and the number of calls (low byte, high byte);
// then the bitmap, a byte a pixel, of which only the lowest bit counts; then four bytes a call: 0 for a lookup or 1 for a claim, x, y, target. Sides
// are at most 128, and calls at most 4,096; a run with more is passed over. For each run it writes what each call answered, in 13 bytes; then the
// picture; then the table's count, and for each place its age and its entry.
#![tactic(auto)]

mod calls;
mod put;

ghost use Rattle.std.specs.Prelude.{◌<◌};

use inputs::read_full;
use std::io;
use std::io::{Read, Write};

// Only the lowest bit of a pixel counts.
fn mask(pic: &mut [u8]) {
    for pixel in pic {
        *pixel %= 2;
    }
}

fn wide(byte: u8) -> usize
    ensures { result < 256 }
{
    byte as usize
}

// Reads n bytes into lent room.
fn load<R: Read>(input: &mut R, room: &mut [u8], n: usize) {
    if n > room.len() {
        return;
    }
    read_full(input, &mut room[..n]);
}

// Replays calls of so many bytes on a bitmap of so many pixels.
fn replay_in<W: Write>(
    output: &mut W,
    room: &mut [u8],
    script: &[u8],
    width: usize,
    height: usize,
    pixels: usize,
    length: usize,
) -> io::Result<()> {
    if pixels > room.len() {
        return Ok(());
    }
    if length > script.len() {
        return Ok(());
    }
    calls::replay(
        output,
        &mut room[..pixels],
        width,
        height,
        &script[..length],
    )
}

// The bitmap and the calls of a run, whose header has been read.
fn replay_calls<R: Read, W: Write>(
    input: &mut R,
    output: &mut W,
    width: usize,
    height: usize,
    count: usize,
) -> io::Result<()> {
    if width > 128 {
        return Ok(());
    }
    if height > 128 {
        return Ok(());
    }
    if count > 4096 {
        return Ok(());
    }
    let pixels = width * height;
    let length = count * 4;
    let mut room = [0u8; 65536];
    let mut script = [0u8; 65536];
    load(input, &mut room, pixels);
    load(input, &mut script, length);
    mask(&mut room);
    replay_in(output, &mut room, &script, width, height, pixels, length)
}

// One run; false at the end of the input.
fn replay_run<R: Read, W: Write>(input: &mut R, output: &mut W) -> io::Result<bool> {
    let mut head = [0u8; 4];
    if read_full(input, &mut head) < 4 {
        return Ok(false);
    }
    let count = wide(head[2]) + wide(head[3]) * 256;
    replay_calls(input, output, wide(head[0]), wide(head[1]), count)?;
    Ok(true)
}

fn main(rt: HostRuntime) -> io::Result<()> {
    let mut input = rt.stdin();
    let mut output = rt.stdout();
    for _ in 0..4000000000u32 {
        if !replay_run(&mut input, &mut output)? {
            return Ok(());
        }
    }
    Ok(())
}
