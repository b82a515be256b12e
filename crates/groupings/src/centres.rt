// The centres, one after the other.
ghost use Rattle.std.specs.Prelude.{◌*◌, ◌≤◌, ◌<◌, length, take};
ghost use Rattle.setups.specs.Remember.{AllRemember};
ghost use Rattle.fourth_corner.specs.Corner.{Workable};
ghost use Rattle.groupings.specs.Groups.{CentreTried, Grouped};
ghost use Rattle.groupings.specs.Held.{groups_of, outcome, Laid, Holds, Stones, Counted};

use crate::Groupings;
use crate::held::{is_used, none};
use crate::pairs::try_pairs;
use capstones::CapStone;
use laid::is_sound;
use match_capstones::find_and_rank_possible_neighbors;
use table::Table;

// Tries the centre idx of the first n stones.
fn try_centre(
    pic: &[u8],
    width: usize,
    height: usize,
    stack: &mut [u32],
    scratch: &mut [u8],
    table: Table,
    stones: [CapStone; 64],
    n: usize,
    idx: usize,
    held: Groupings,
) -> Groupings
    requires { Workable pic.now width height (length stack.old) table × (width * height ≤ length scratch.old) × Stones stones n × (idx < n) × Holds held × Counted n (groups_of held) × AllRemember pic.now width height held.setups }
    ensures { CentreTried pic.now width height table (take n stones) idx (groups_of held) (outcome result) × Laid result × AllRemember pic.now width height result.setups }
{
    if is_used(held, idx) {
        return held;
    }
    let ranked = find_and_rank_possible_neighbors(stones, n, idx);
    let pairs = ranked.pairs;
    let answer = ranked.answer;
    match answer {
        Ok(count) => try_pairs(
            pic, width, height, stack, scratch, table, stones, idx, pairs, count, held,
        ),
        Err(why) => none(Err(why)),
    }
}

// Finds the groups of the first n stones: each stone is a centre in its turn. Trials are made in the scratch, and the picture is only read.
pub fn find_groupings(
    pic: &[u8],
    width: usize,
    height: usize,
    stack: &mut [u32],
    scratch: &mut [u8],
    table: Table,
    stones: [CapStone; 64],
    n: usize,
) -> Groupings
    requires { Workable pic.now width height (length stack.old) table × (width * height ≤ length scratch.old) × Stones stones n }
    ensures { Grouped pic.now width height table (take n stones) (outcome result) × Laid result × AllRemember pic.now width height result.setups }
{
    let mut sofar = none(Ok(()));
    for idx in 0..n {
        sofar = try_centre(
            pic, width, height, stack, scratch, table, stones, n, idx, sofar,
        );
        if !is_sound(sofar.verdict) {
            return sofar;
        }
    }
    sofar
}
