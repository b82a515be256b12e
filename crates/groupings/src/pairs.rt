// The pairs of a centre, one after the other.
ghost use Rattle.std.specs.Prelude.{◌≡◌, ℕ, ◌*◌, ◌≤◌, ◌<◌, length, get_or, take};
ghost use Rattle.match_capstones.specs.Answer.{no_pair};
ghost use Rattle.setups.specs.Remember.{AllRemember};
ghost use Rattle.fourth_corner.specs.Corner.{Workable};
ghost use Rattle.groupings.specs.Used.{group_of};
ghost use Rattle.groupings.specs.Groups.{PairTried, PairsTried};
ghost use Rattle.groupings.specs.Held.{groups_of, outcome, Laid, Holds, Beside, Low, Triable};

use crate::held::{is_used, taken};
use crate::trial::trial;
use crate::{Groupings, Trio};
use capstones::CapStone;
use groups::CapStoneGroup;
use laid::is_sound;
use match_capstones::Pair;
use table::Table;

// The stones that a trio names.
pub fn group_of(stones: [CapStone; 64], t: Trio) -> CapStoneGroup
    requires { Low 64 t }
    ensures { result ≡ group_of stones t }
{
    let i = t.first;
    let j = t.second;
    let k = t.third;
    let first = stones[i];
    let second = stones[j];
    let third = stones[k];
    CapStoneGroup {
        first: first,
        second: second,
        third: third,
    }
}

// Tries a pair of the centre idx.
fn try_pair(
    pic: &[u8],
    width: usize,
    height: usize,
    stack: &mut [u32],
    scratch: &mut [u8],
    table: Table,
    stones: [CapStone; 64],
    idx: usize,
    pair: Pair,
    held: Groupings,
) -> Groupings
    requires { Workable pic.now width height (length stack.old) table × (width * height ≤ length scratch.old) × Triable stones idx pair × Holds held × Beside 64 idx (groups_of held) × AllRemember pic.now width height held.setups }
    ensures { PairTried pic.now width height table stones idx pair (groups_of held) (outcome result) × Laid result × AllRemember pic.now width height result.setups }
{
    if is_used(held, pair.h) {
        return held;
    }
    if is_used(held, pair.v) {
        return held;
    }
    let t = Trio {
        first: pair.h,
        second: idx,
        third: pair.v,
    };
    let group = group_of(stones, t);
    let answer = trial(pic, width, height, stack, scratch, table, group);
    taken(held, t, answer)
}

// Tries the pairs of the centre idx, in their order; a refusal ends it.
pub fn try_pairs(
    pic: &[u8],
    width: usize,
    height: usize,
    stack: &mut [u32],
    scratch: &mut [u8],
    table: Table,
    stones: [CapStone; 64],
    idx: usize,
    pairs: [Pair; 992],
    count: usize,
    held: Groupings,
) -> Groupings
    requires { Workable pic.now width height (length stack.old) table × (width * height ≤ length scratch.old) × (count ≤ 992) × ((k : ℕ) → k < count → Triable stones idx (get_or pairs k no_pair)) × Holds held × Beside 64 idx (groups_of held) × AllRemember pic.now width height held.setups }
    ensures { PairsTried pic.now width height table stones idx (take count pairs) (groups_of held) (outcome result) × Laid result × AllRemember pic.now width height result.setups }
{
    let mut sofar = held;
    for k in 0..count {
        let pair = pairs[k];
        sofar = try_pair(
            pic, width, height, stack, scratch, table, stones, idx, pair, sofar,
        );
        if !is_sound(sofar.verdict) {
            return sofar;
        }
    }
    sofar
}
