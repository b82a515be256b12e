// The ranking of a stone's neighbours, over a lent list of stones (identify/match_capstones.rs).
#![tactic(auto)]

ghost use Rattle.std.specs.Prelude.{◌≡◌, length};
ghost use Rattle.match_capstones.specs.Answer.{ranking, Tells};
ghost use Rattle.neighbors.specs.Most.{fewer};

use capstones::{CapStone, blanks};
use match_capstones::{Ranked, find_and_rank_possible_neighbors};

// How many of n stones a ranking looks at.
fn taken(n: usize) -> usize
    ensures { result ≡ fewer n }
{
    if n < 64 { n } else { 64 }
}

// The pairs of neighbours of stone idx, of the stones that are lent: 11, 16, or the pairs.
#[tactic(auto, using(crate::proofs::Gathered::fewer_low, crate::proofs::Gathered::front_length, crate::proofs::Gathered::ranked_alike))]
pub fn rank_neighbors(stones: &[CapStone], idx: usize) -> Ranked
    ensures { Tells (ranking stones.now (length stones.now) idx) result }
{
    let mut all = blanks();
    let n = stones.len();
    let last = taken(n);
    all[..last].copy_from_slice(&stones[..last]);
    find_and_rank_possible_neighbors(all, n, idx)
}
