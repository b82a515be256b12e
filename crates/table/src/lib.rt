#![tactic(auto)]

ghost use Rattle.std.specs.Prelude.{◌≡◌, ◌≤◌};
ghost use Rattle.table.specs.Table.{empty_table, copy_of};

mod age;
mod sound;

pub use age::{place_of, put_first};
pub use sound::is_sound;

// A region as the table keeps it: the pixel that it was met at, and how many pixels it has.
#[derive(Clone, Copy)]
pub struct Entry {
    pub x: u16,
    pub y: u16,
    pub px: u32,
}

// The region table: n entries, each at its number, and these numbers by age, the newest first.
#[derive(Clone, Copy)]
pub struct Table {
    pub entries: [Entry; 251],
    pub age: [u8; 251],
    pub n: usize,
}

// The table with no entry, blank throughout.
pub fn empty() -> Table
    ensures { result ≡ empty_table }
{
    let entries = [Entry { x: 0, y: 0, px: 0 }; 251];
    let age = [0u8; 251];
    Table {
        entries: entries,
        age: age,
        n: 0,
    }
}

// A trial's copy: the entries kept, the age order turned round.
#[tactic(auto, unfolding(crate::specs::Age::turned_round))]
pub fn copied(t: Table) -> Table
    requires { t.n ≤ 251 }
    ensures { result ≡ copy_of t }
{
    let entries = t.entries;
    let mut age = t.age;
    age[..t.n].reverse();
    Table {
        entries: entries,
        age: age,
        n: t.n,
    }
}
