// The neighbours of a stone, in pairs, the likeliest pair first.
ghost use Rattle.std.specs.Prelude.{◌≤◌, ◌-◌, ◌≡◌, ◌++◌, map, length, take, replicate};
ghost use Rattle.refusals.specs.Finding.{refused_by};
ghost use Rattle.match_capstones.specs.Answer.{pair_of, no_pair, ranking, Tells};

use crate::lists::find_possible_neighbors;
use crate::sets::possible_sets;
use crate::sort::sorted;
use crate::{NeighborSets, Pair, Ranked};
use capstones::CapStone;
use refusals::Refusal;

// The pairs of a list of sets, and blank pairs to the end.
fn pairs_of(sets: NeighborSets) -> [Pair; 992]
    requires { (length sets.all ≡ 992) × (sets.n ≤ 992) }
    ensures { result ≡ map pair_of (take sets.n sets.all) ++ replicate (992 - sets.n) no_pair }
{
    let mut pairs = [Pair { h: 0, v: 0 }; 992];
    let last = sets.n;
    for i in 0..last {
        let set = sets.all[i];
        pairs[i] = Pair { h: set.h, v: set.v };
    }
    pairs
}

// A refusal: beside it every pair is blank.
fn refused(why: Refusal) -> Ranked
    ensures { Tells (refused_by why) result }
{
    Ranked {
        pairs: [Pair { h: 0, v: 0 }; 992],
        answer: Err(why),
    }
}

// The pairs of neighbours of stone idx, of the first n stones, in the order in which they may be the other corners of its symbol: 11, 16, or the pairs.
pub fn find_and_rank_possible_neighbors(stones: [CapStone; 64], n: usize, idx: usize) -> Ranked
    ensures { Tells (ranking stones n idx) result }
{
    if 64 < n {
        return refused(Refusal::Stones);
    }
    if n <= idx {
        return refused(Refusal::Index);
    }
    let lists = find_possible_neighbors(stones, n, idx);
    let sets = sorted(possible_sets(lists.hlist, lists.vlist));
    let count = sets.n;
    let pairs = pairs_of(sets);
    Ranked {
        pairs,
        answer: Ok(count),
    }
}
