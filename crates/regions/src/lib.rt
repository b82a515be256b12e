#![tactic(auto)]

ghost use Rattle.std.specs.Prelude.{length};
ghost use Rattle.regions.specs.Found.{meaning};
ghost use Rattle.regions.specs.Tests.{Lookable};
ghost use Rattle.regions.specs.Lookup.{Answered, Looks, LookPost};

use picture::PixelColor;
use refusals::Refusal;
use table::{Entry, Table, put_first};

mod ladder;
mod number;

pub use ladder::is_unlisted;

// A region that no claim has taken: its number, with its entry.
#[derive(Clone, Copy)]
pub struct Region {
    pub number: u8,
    pub entry: Entry,
}

// What a lookup finds: a claimed piece's colour, or an unclaimed piece's region.
#[derive(Clone, Copy)]
pub enum ColoredRegion {
    Claimed(PixelColor),
    Unclaimed(Region),
}

// A lookup's answer, beside the table that it leaves. The table stands first: behind an answer there would be a gap before it, and to clear the gap
// each lookup would clear a whole table.
#[derive(Clone, Copy)]
pub struct Looked {
    pub table: Table,
    pub found: Result<ColoredRegion, Refusal>,
}

// Looks the piece of (x, y) up, where nothing is to be refused.
pub fn get_region(
    pic: &mut [u8],
    width: usize,
    height: usize,
    stack: &mut [u32],
    table: Table,
    x: usize,
    y: usize,
) -> Looked
    requires { Lookable pic.old width height (length stack.old) table x y }
    ensures { Answered (meaning result.found) (λ a. Looks pic.old width height x y table a pic.new result.table) }
{
    let byte = pic[y * width + x];
    if number::is_claimed(byte) {
        return Looked {
            found: Ok(ColoredRegion::Claimed(PixelColor::from(byte))),
            table: table,
        };
    }
    let mut u = table;
    let mut age = u.age;
    let choice = number::chosen(&age, u.n, byte);
    let k = choice.number;
    let i = k as usize;
    let old = u.entries[i];
    let entry = number::enter(pic, width, height, stack, x, y, old, k, byte, u.n);
    u.entries[i] = entry;
    put_first(&mut age, choice.place, k);
    u.age = age;
    u.n = choice.count;
    Looked {
        found: Ok(ColoredRegion::Unclaimed(Region {
            number: k,
            entry: entry,
        })),
        table: u,
    }
}

// Looks the piece of (x, y) up: the table goes in and comes back.
pub fn look_up(
    pic: &mut [u8],
    width: usize,
    height: usize,
    stack: &mut [u32],
    table: Table,
    x: usize,
    y: usize,
) -> Looked
    ensures { LookPost pic.old width height (length stack.old) table x y (meaning result.found) pic.new result.table }
{
    match ladder::lookable(pic, width, height, stack.len(), table, x, y) {
        Err(why) => Looked {
            found: Err(why),
            table: table,
        },
        Ok(()) => get_region(pic, width, height, stack, table, x, y),
    }
}
