// The groups, one after the other.
ghost use Rattle.std.specs.Prelude.{◌≤◌, ◌<◌, [], length, take};
ghost use Rattle.setups.specs.Remember.{Remembers, AllRemember};
ghost use Rattle.fourth_corner.specs.Corner.{Workable};
ghost use Rattle.locations.specs.Held.{outcome_of, LaidOut, Held};
ghost use Rattle.locations.specs.Pass.{Ready, AllReady, FitsOne, FitsAll};

use crate::Locations;
use crate::held::{none, taken};
use capstones::CapStone;
use fit::refit;
use groupings::{Trio, group_of};
use laid::is_sound;
use setups::Setup;
use table::Table;

// Fits the group that a trio names, by the setup that is known, and takes what it comes to.
fn fit_one(
    pic: &mut [u8],
    width: usize,
    height: usize,
    stack: &mut [u32],
    stones: [CapStone; 64],
    t: Trio,
    setup: Setup,
    held: Locations,
) -> Locations
    requires { Workable pic.old width height (length stack.old) held.table × Ready stones t × Held held × (held.n < 31) × Remembers pic.old width height setup }
    ensures { FitsOne pic.old width height stones t held pic.new result }
{
    let group = group_of(stones, t);
    let table = held.table;
    let fitted = refit(pic, width, height, stack, table, group, setup);
    let answer = fitted.answer;
    let fit = answer.fit;
    let after = fitted.table;
    taken(held, fit, after)
}

// Fits the first n groups, each by the setup that is known of it, and leaves the paint; a refusal ends it.
pub fn fit_all(
    pic: &mut [u8],
    width: usize,
    height: usize,
    stack: &mut [u32],
    table: Table,
    stones: [CapStone; 64],
    groups: [Trio; 31],
    setups: [Setup; 31],
    n: usize,
) -> Locations
    requires { Workable pic.old width height (length stack.old) table × (n ≤ 31) × AllReady stones groups n × AllRemember pic.old width height setups }
    ensures { FitsAll width height stones (take n groups) pic.old table [] (outcome_of result) pic.new result.table × LaidOut result }
{
    let mut sofar = none(Ok(()), table);
    for k in 0..n {
        let t = groups[k];
        let setup = setups[k];
        sofar = fit_one(pic, width, height, stack, stones, t, setup, sofar);
        if !is_sound(sofar.verdict) {
            return sofar;
        }
    }
    sofar
}
