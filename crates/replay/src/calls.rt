// The calls of one run.
use crate::put;
use claim::claim;
use regions::look_up;
use std::io;
use std::io::Write;
use table::{Table, empty};

// A table, and where the next answer is to be written.
#[derive(Clone, Copy)]
struct Replayed {
    table: Table,
    at: usize,
}

// One call, by its four bytes.
fn call(
    pic: &mut [u8],
    width: usize,
    height: usize,
    stack: &mut [u32],
    before: Replayed,
    step: [u8; 4],
    out: &mut [u8],
) -> Replayed {
    let t = before.table;
    let at = before.at;
    let x = step[1] as usize;
    let y = step[2] as usize;
    if step[0] == 0 {
        let looked = look_up(pic, width, height, stack, t, x, y);
        let left = looked.table;
        let found = looked.found;
        let next = put::looked(out, at, found);
        return Replayed {
            table: left,
            at: next,
        };
    }
    let done = claim(pic, width, height, stack, x, y, step[3]);
    let next = put::claimed(out, at, done);
    Replayed { table: t, at: next }
}

// All calls of the script.
fn run(
    pic: &mut [u8],
    width: usize,
    height: usize,
    stack: &mut [u32],
    script: &[u8],
    out: &mut [u8],
) -> Replayed {
    let mut now = Replayed {
        table: empty(),
        at: 0,
    };
    let (steps, _) = script.as_chunks::<4>();
    for &step in steps {
        now = call(pic, width, height, stack, now, step, out);
    }
    now
}

fn room() -> [u32; 65536] {
    [0u32; 65536]
}

// Writes the first n bytes.
fn show<W: Write>(output: &mut W, out: &[u8], n: usize) -> io::Result<()> {
    if n > out.len() {
        return Ok(());
    }
    output.write_all(&out[..n])
}

// Replays the calls on the picture, from an empty table, and writes all that came of them.
pub fn replay<W: Write>(
    output: &mut W,
    pic: &mut [u8],
    width: usize,
    height: usize,
    script: &[u8],
) -> io::Result<()> {
    let mut stack = room();
    let mut out = [0u8; 65536];
    let end = run(pic, width, height, &mut stack, script, &mut out);
    let t = end.table;
    let at = end.at;
    let shown = put::picture(&mut out, at, pic);
    let last = put::table(&mut out, shown, t);
    show(output, &out, last)
}
