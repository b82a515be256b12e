// Replays recorded answers of the Rust. Standard input holds cases, each on a line: a letter for its kind, five hex digits for the number of bytes behind
// them, and then words, each behind a space: what an operation is called with, and what it answers. oracle/README.md says how they were recorded.
// It writes, for each kind, how many cases it compared, and how many differ.
#![tactic(auto)]

mod bitmaps;
mod cells_read;
mod checks;
mod claims;
mod detections;
mod fits;
mod lookups;
mod pictures;
mod ranks;
mod stones;
mod sums;
mod tables;
mod tally;
mod words;

use inputs::read_full;
use std::io;
use std::io::Read;
use tally::{Kind, Tally};

// A case's kind, and how many bytes it has.
#[derive(Clone, Copy)]
struct Head {
    kind: Kind,
    length: usize,
}

// Room for the bytes of a case.
fn text_room() -> [u8; 262144] {
    [0u8; 262144]
}

// Room for the largest picture, and for the scratch.
fn picture_room() -> [u8; 640000] {
    [0u8; 640000]
}

// Room for the stack of the largest picture.
fn stack_room() -> [u32; 640000] {
    [0u32; 640000]
}

// What the next case starts with; none at the end of the input.
fn read_head<R: Read>(input: &mut R) -> Option<Head> {
    let mut head = [0u8; 6];
    if read_full(input, &mut head) < 6 {
        return None;
    }
    let kind = Kind::from(head[0]);
    head[0] = b' ';
    let length = words::read_word(&head, 0);
    Some(Head {
        kind: kind,
        length: length.value as usize,
    })
}

// Whether the case answers as recorded.
fn is_same(kind: Kind, text: &[u8], pic: &mut [u8], stack: &mut [u32], scratch: &mut [u8]) -> bool {
    match kind {
        Kind::Prepare | Kind::PrepareNarrow => bitmaps::same_prepare(text, pic),
        Kind::Accept => bitmaps::same_accept(text, pic),
        Kind::Claim => claims::same_claim(text, pic, stack),
        Kind::Run | Kind::FullRun => lookups::same_run(text, pic, stack),
        Kind::Rank => ranks::same_rank(text),
        Kind::Fit => fits::same_fit(text, pic, stack, scratch),
        Kind::Cells => cells_read::same_cells(text, pic),
        Kind::OneGrid | Kind::SeveralGrids | Kind::NoGrid | Kind::NineByNine | Kind::Refused =>
            detections::same_detect(text, pic, stack, scratch),
        Kind::Unknown => false,
    }
}

// Reads the case whose start was read, and compares it.
fn replay<R: Read>(
    input: &mut R,
    head: Head,
    text: &mut [u8],
    pic: &mut [u8],
    stack: &mut [u32],
    scratch: &mut [u8],
) -> bool {
    let length = head.length;
    if length > text.len() {
        return false;
    }
    read_full(input, &mut text[..length]);
    is_same(head.kind, &text[..length], pic, stack, scratch)
}

// All cases of the input.
fn replay_all<R: Read>(
    input: &mut R,
    text: &mut [u8],
    pic: &mut [u8],
    stack: &mut [u32],
    scratch: &mut [u8],
) -> Tally {
    let mut now = tally::none();
    for _ in 0..1000000u32 {
        let Some(head) = read_head(input) else {
            return now;
        };
        let same = replay(input, head, text, pic, stack, scratch);
        now = tally::counted(now, head.kind, same);
    }
    now
}

// Replays the input, and writes what came of it.
fn main(rt: HostRuntime) -> io::Result<()> {
    let mut text = text_room();
    let mut pic = picture_room();
    let mut stack = stack_room();
    let mut scratch = picture_room();
    let all = replay_all(
        &mut rt.stdin(),
        &mut text,
        &mut pic,
        &mut stack,
        &mut scratch,
    );
    tally::show_all(&rt, all)
}
