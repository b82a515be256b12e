// Sets of two neighbours, one of each list, with their scores.
ghost use Rattle.std.specs.Prelude.{◌+◌, ◌≤◌, ◌≡◌, length, take};
ghost use Rattle.match_capstones.specs.Arrays.{Holds};
ghost use Rattle.match_capstones.specs.Scores.{score_of, viable, made};

use crate::{NeighborSet, NeighborSets, Neighbors};

// How unlike two distances are.
fn score_of(h: f64, v: f64) -> f64
    ensures { result ≡ score_of h v }
{
    if h < v {
        (1.0 - h / v).abs()
    } else {
        (1.0 - v / h).abs()
    }
}

// Whether a set with this score is kept.
fn is_viable(score: f64) -> bool
    ensures { result ≡ viable score }
{
    score < 0.25 || score.is_nan()
}

// All sets that two lists make: each neighbour of the first with each of the second.
pub fn possible_sets(hns: Neighbors, vns: Neighbors) -> NeighborSets
    requires { (length hns.all ≡ 64) × (length vns.all ≡ 64) × (hns.n + vns.n ≤ 63) }
    ensures { Holds 992 result.all result.n (made (take hns.n hns.all) (take vns.n vns.all)) }
{
    let mut all = [NeighborSet {
        score: 0.0,
        h: 0,
        v: 0,
    }; 992];
    let mut n = 0;
    for hn in &hns.all[..hns.n] {
        for vn in &vns.all[..vns.n] {
            let score = score_of(hn.distance, vn.distance);
            if !is_viable(score) {
                continue;
            }
            all[n] = NeighborSet {
                score,
                h: hn.index,
                v: vn.index,
            };
            n += 1;
        }
    }
    NeighborSets { all, n }
}
