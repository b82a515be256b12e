// Region tables of a recorded case: the count, how many places are listed, and for each the number by age and the entry.
use crate::checks::{Check, expect};
use crate::words::{Here, read_word};
use table::{Entry, Table, empty};

// One place of a table.
#[derive(Clone, Copy)]
struct Place {
    age: u8,
    entry: Entry,
}

// The place that stands here.
fn read_place(text: &[u8], at: usize) -> Here<Place> {
    let age = read_word(text, at);
    let x = read_word(text, age.next);
    let y = read_word(text, x.next);
    let px = read_word(text, y.next);
    let entry = Entry {
        x: (x.value % 65536) as u16,
        y: (y.value % 65536) as u16,
        px: (px.value % 4294967296) as u32,
    };
    let place = Place {
        age: (age.value % 256) as u8,
        entry: entry,
    };
    Here {
        value: place,
        next: px.next,
    }
}

// The table that stands here.
pub fn read_table(text: &[u8], at: usize) -> Here<Table> {
    let n = read_word(text, at);
    let listed = read_word(text, n.next);
    let mut set = empty();
    let mut next = listed.next;
    for k in 0..listed.value.min(251) as usize {
        let here = read_place(text, next);
        let place = here.value;
        set.age[k] = place.age;
        set.entries[k] = place.entry;
        next = here.next;
    }
    set.n = n.value as usize;
    Here {
        value: set,
        next: next,
    }
}

// The next words are to say one place of a table.
fn expect_place(text: &[u8], check: Check, age: u8, entry: Entry) -> Check {
    let a = expect(text, check, age as u64);
    let x = expect(text, a, entry.x as u64);
    let y = expect(text, x, entry.y as u64);
    expect(text, y, entry.px as u64)
}

// The next words are to say a table: its count, and its places up to it.
pub fn expect_table(text: &[u8], check: Check, t: Table) -> Check {
    let n = t.n;
    let mut now = expect(text, check, n as u64);
    for k in 0..n.min(251) {
        now = expect_place(text, now, t.age[k], t.entries[k]);
    }
    now
}
