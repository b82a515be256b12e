// The ranking of a stone's neighbours, for callers in C and in Rust. It asks nothing of its caller but that each pointer with its length is
// a slice.
#![tactic(auto)]

mod lent;
mod pairs;

ghost use Rattle.exports_ranking.specs.Ranks.{Ranks};

use crate::lent::stones_of;
use crate::pairs::{put_answer, put_pairs};
use match_capstones::find_and_rank_possible_neighbors;

// Ranks the neighbours of stone idx, of n stones: 0, or the refusal 11 or 16. There are always 64 stones lent, blank or not from n on: a
// centre as two numbers, a perspective as eight. The pairs stand from pairs[0] on, two indices each, the likeliest first, and zeros past
// them; pairs[1984] is their number, where they are found. 3 where there are fewer than 128, 512 and 1985 places, with all as it was.
#[unsafe(no_mangle)]
pub extern "C" fn elmetzhur_rank(
    centers: &[i32],
    floats: &[f64],
    n: usize,
    idx: usize,
    pairs: &mut [usize],
) -> u8
    ensures { Ranks centers.now floats.now n idx pairs.old pairs.new result }
{
    if centers.len() < 128 {
        return 3;
    }
    if floats.len() < 512 {
        return 3;
    }
    if pairs.len() < 1985 {
        return 3;
    }
    let stones = stones_of(centers, floats);
    let ranked = find_and_rank_possible_neighbors(stones, n, idx);
    let all = ranked.pairs;
    put_pairs(all, pairs);
    let answer = ranked.answer;
    put_answer(answer, pairs)
}
