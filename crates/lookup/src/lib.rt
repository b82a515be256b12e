// Lookup with the region table lent (prepare.rs, `get_region`).
#![tactic(auto)]

ghost use Rattle.std.specs.Prelude.{◌≡◌, ◌<◌, length};
ghost use Rattle.table.specs.Table.{entry_of};
ghost use Rattle.regions.specs.Found.{meaning};
ghost use Rattle.regions.specs.Lookup.{LookPost};
ghost use Rattle.lookup.specs.Newest.{newest_of};

use refusals::Refusal;
use regions::ColoredRegion;
use table::{Entry, Table};

// An entry, with its number.
#[derive(Clone, Copy)]
struct Numbered {
    number: usize,
    entry: Entry,
}

// The newest entry of a table: the only one that a lookup may have written.
fn newest(left: Table) -> Numbered
    ensures { (result.number ≡ newest_of left) × (result.number < 251) × (result.entry ≡ entry_of left result.number) }
{
    let first = left.age[0] as usize;
    if first < 251 {
        let entry = left.entries[first];
        return Numbered {
            number: first,
            entry: entry,
        };
    }
    let entry = left.entries[0];
    Numbered {
        number: 0,
        entry: entry,
    }
}

// Looks the piece of (x, y) up. Entry, age order and count are written through the reference.
pub fn look_up(
    pic: &mut [u8],
    width: usize,
    height: usize,
    stack: &mut [u32],
    table: &mut Table,
    x: usize,
    y: usize,
) -> Result<ColoredRegion, Refusal>
    ensures { LookPost pic.old width height (length stack.old) table.old x y (meaning result) pic.new table.new }
{
    let looked = regions::look_up(pic, width, height, stack, *table, x, y);
    let written = newest(looked.table);
    let k = written.number;
    table.entries[k] = written.entry;
    let age = looked.table.age;
    table.age = age;
    table.n = looked.table.n;
    looked.found
}
