// Document 01's example of a full table: a 503 x 1 bitmap, black at even x, looked up from left to right.
// The 252nd lookup gets byte 5, and x = 0 is 1 again. Writes the bytes at x = 0, 2, 500 and 502 after that, and the table's count.
#![tactic(auto)]

ghost use Rattle.std.specs.Prelude.{◌≡◌, Result, length};
ghost use Rattle.refusals.specs.declared.Refusal.{Refusal};
ghost use Rattle.regions.specs.declared.ColoredRegion.{ColoredRegion};
ghost use Rattle.regions.specs.Found.{meaning};
ghost use Rattle.regions.specs.Lookup.{LookPost};

use lookup::look_up;
use std::io;
use table::{Table, empty};

// Makes every even pixel of the strip black.
fn draw(pic: &mut [u8])
    requires { length pic.old ≡ 503 }
{
    for k in 0..252 {
        pic[k * 2] = 1;
    }
}

// Looks one pixel up, with the table lent.
fn look_at(pic: &mut [u8], stack: &mut [u32], before: Table, x: usize) -> Table
    ensures { (a : Result ColoredRegion Refusal) × LookPost pic.old 503 1 (length stack.old) before x 0 (meaning a) pic.new result }
{
    let mut table = before;
    let _ = look_up(pic, 503, 1, stack, &mut table, x, 0);
    table
}

// Looks the black pixels up, from left to right.
fn look_along(pic: &mut [u8], stack: &mut [u32], start: Table) -> Table {
    let mut latest = start;
    for k in 0..252 {
        latest = look_at(pic, stack, latest, k * 2);
    }
    latest
}

fn wide(byte: u8) -> u64 {
    byte as u64
}

fn show(rt: &impl Print, number: u64) -> io::Result<()> {
    println!(rt; "{number}")
}

fn main(rt: HostRuntime) -> io::Result<()> {
    let mut pic = [0u8; 503];
    let mut stack = [0u32; 503];
    draw(&mut pic);
    let last = look_along(&mut pic, &mut stack, empty());
    show(&rt, wide(pic[0]))?;
    show(&rt, wide(pic[2]))?;
    show(&rt, wide(pic[500]))?;
    show(&rt, wide(pic[502]))?;
    let count = last.n;
    show(&rt, count as u64)
}
