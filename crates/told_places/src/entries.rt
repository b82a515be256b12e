// A region table into a lent slice.
ghost use Rattle.std.specs.Prelude.{◌≡◌, [], ◌∷◌, ◌+◌, ◌≤◌, length};
ghost use Rattle.told_places.specs.Put.{put_at};
ghost use Rattle.told_places.specs.Values.{entry_numbers, all_entries, counted_put, table_put};

use table::{Entry, Table};

// A number by age, and an entry, from a place on.
fn put_entry(age: u8, entry: Entry, at: usize, out: &mut [usize])
    requires { at + 4 ≤ length out.old }
    ensures { out.new ≡ put_at out.old at (entry_numbers age entry) }
{
    out[at] = age as usize;
    out[at + 1] = entry.x as usize;
    out[at + 2] = entry.y as usize;
    out[at + 3] = entry.px as usize;
}

// All 251 places of a table.
pub fn put_entries(table: Table, out: &mut [usize])
    requires { 1004 ≤ length out.old }
    ensures { out.new ≡ all_entries table out.old }
{
    for k in 0..251 {
        let age = table.age[k];
        let entry = table.entries[k];
        put_entry(age, entry, k * 4, out);
    }
}

// How many entries there are, and another count.
fn put_counts(entries: usize, count: usize, out: &mut [usize])
    requires { 1006 ≤ length out.old }
    ensures { out.new ≡ put_at out.old 1004 (entries ∷ count ∷ []) }
{
    out[1004] = entries;
    out[1005] = count;
}

// A table, and a number behind it.
pub fn put_counted(table: Table, count: usize, out: &mut [usize])
    requires { 1006 ≤ length out.old }
    ensures { out.new ≡ counted_put table count out.old }
{
    put_entries(table, out);
    put_counts(table.n, count, out);
}

// A table, and two numbers behind it.
pub fn put_table(table: Table, first: usize, second: usize, out: &mut [usize])
    requires { 1007 ≤ length out.old }
    ensures { out.new ≡ table_put table first second out.old }
{
    put_counted(table, first, out);
    out[1006] = second;
}
