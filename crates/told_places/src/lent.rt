// A region table from a lent slice.
ghost use Rattle.std.specs.Prelude.{◌≡◌, ◌≤◌, ◌<◌, length, replicate};
ghost use Rattle.told_places.specs.Lent.{at_most, age_at, entry_at, first_of, table_of};

use std::array;
use table::{Entry, Table};

// A number, or the most that its place holds.
fn at_most(most: usize, v: usize) -> usize
    ensures { (result ≡ at_most most v) × (result ≤ most) }
{
    if most < v {
        return most;
    }
    v
}

// The number that is the k-th newest.
fn age_at(counts: &[usize], k: usize) -> u8
    requires { (k < 251) × (1005 ≤ length counts.now) }
    ensures { result ≡ age_at counts.now k }
{
    let age = at_most(255, counts[k * 4]);
    age as u8
}

// The entry of number k.
fn entry_at(counts: &[usize], k: usize) -> Entry
    requires { (k < 251) × (1005 ≤ length counts.now) }
    ensures { result ≡ entry_at counts.now k }
{
    let x = at_most(65535, counts[k * 4 + 1]);
    let y = at_most(65535, counts[k * 4 + 2]);
    let px = at_most(4294967295, counts[k * 4 + 3]);
    Entry {
        x: x as u16,
        y: y as u16,
        px: px as u32,
    }
}

// All numbers, by age.
fn ages_of(counts: &[usize]) -> [u8; 251]
    requires { 1005 ≤ length counts.now }
    ensures { result ≡ first_of (age_at counts.now) 251 }
{
    array::from_fn(|k| age_at(counts, k))
}

// All entries.
fn entries_of(counts: &[usize]) -> [Entry; 251]
    requires { 1005 ≤ length counts.now }
    ensures { result ≡ first_of (entry_at counts.now) 251 }
{
    array::from_fn(|k| entry_at(counts, k))
}

// The table.
pub fn table_of(counts: &[usize]) -> Table
    requires { 1005 ≤ length counts.now }
    ensures { result ≡ table_of counts.now }
{
    let entries = entries_of(counts);
    let ages = ages_of(counts);
    let n = counts[1004];
    Table {
        entries: entries,
        age: ages,
        n: n,
    }
}
