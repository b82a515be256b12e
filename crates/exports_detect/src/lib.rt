// Detect, for callers in C and in Rust. It asks nothing of its caller but that each pointer with its length is a slice.
#![tactic(auto)]

mod places;

ghost use Rattle.std.specs.Prelude.{◌≡◌, ◌≤◌, length};
ghost use Rattle.told_places.specs.Values.{table_put};
ghost use Rattle.exports_detect.specs.Tells.{all_places, all_floats, counts_after, places_after, floats_after, status_of, Tells};

use crate::places::put_grids;
use detect::{Findings, detect};
use refusals::Refusal;
use table::{Table, empty};
use told_places::entries::put_table;

// What is found, and the table that finding it left.
fn put_found(
    found: Findings,
    left: Table,
    counts: &mut [usize],
    places: &mut [i32],
    floats: &mut [f64],
) -> u8
    requires { (1007 ≤ length counts.old) × (279 ≤ length places.old) × (248 ≤ length floats.old) }
    ensures { (result ≡ 0) × (counts.new ≡ table_put left found.stones found.n counts.old) × (places.new ≡ all_places found.grids places.old) × (floats.new ≡ all_floats found.grids floats.old) }
{
    let grids = found.grids;
    put_table(left, found.stones, found.n, counts);
    put_grids(grids, places, floats);
    0
}

// The answer: what is found, or a refusal's number.
fn tell(
    found: Result<Findings, Refusal>,
    left: Table,
    counts: &mut [usize],
    places: &mut [i32],
    floats: &mut [f64],
) -> u8
    requires { (1007 ≤ length counts.old) × (279 ≤ length places.old) × (248 ≤ length floats.old) }
    ensures { (result ≡ status_of found) × (counts.new ≡ counts_after found left counts.old) × (places.new ≡ places_after found places.old) × (floats.new ≡ floats_after found floats.old) }
{
    match found {
        Ok(found) => put_found(found, left, counts, places, floats),
        Err(why) => u8::from(why),
    }
}

// Finds the stones and the grids of a bitmap: 0, or the refusal 1, 2, 3 or 4, and then as its stages meet them. The stack has an entry for
// each pixel, and so has the scratch. Grid k stands as nine numbers from places[9 k] on, its size and its four bounds, and as eight
// coefficients from floats[8 k] on, blank from the number of grids on. The table that is left stands in counts, its place k from
// counts[4 k] on, as the number that is the k-th newest and the entry of number k: column, line, pixels; counts[1004] is the number of
// entries, counts[1005] of stones, counts[1006] of grids. A refusal leaves all as it was. 3 where there are fewer than 1007, 279 and 248 places.
#[unsafe(no_mangle)]
pub extern "C" fn elmetzhur_detect(
    pic: &mut [u8],
    width: usize,
    height: usize,
    stack: &mut [u32],
    scratch: &mut [u8],
    counts: &mut [usize],
    places: &mut [i32],
    floats: &mut [f64],
) -> u8
    ensures { Tells pic.old width height (length stack.old) (length scratch.old) pic.new counts.old counts.new places.old places.new floats.old floats.new result }
{
    if counts.len() < 1007 {
        return 3;
    }
    if places.len() < 279 {
        return 3;
    }
    if floats.len() < 248 {
        return 3;
    }
    let table = empty();
    let done = detect(pic, width, height, stack, scratch, table);
    tell(done.findings, done.table, counts, places, floats)
}
