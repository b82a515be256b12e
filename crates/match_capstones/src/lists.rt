// The stones in line with a stone, as two lists.
ghost use Rattle.std.specs.Prelude.{◌<◌, ◌≤◌, ◌≡◌, take};
ghost use Rattle.match_capstones.specs.Neighbors.{offset, in_line, others_of, hlist, vlist};
ghost use Rattle.match_capstones.specs.Arrays.{Holds};

use crate::{Neighbor, NeighborLists, Neighbors};
use capstones::CapStone;
use geometry::{GridPoint, Perspective};
use points::Point;

// How far a point lies from a stone's middle, along each axis of the stone's grid.
fn offset_of(c: Perspective, q: Point) -> GridPoint
    ensures { result ≡ offset c q }
{
    let at = c.unmap(q);
    let u = (at.u - 3.5).abs();
    let v = (at.v - 3.5).abs();
    GridPoint { u: u, v: v }
}

// Whether a stone that lies so far across and so far along is in line.
fn is_in_line(across: f64, along: f64) -> bool
    ensures { result ≡ in_line across along }
{
    across < 0.2 * along
}

// What stands in a list's array where there is no neighbour.
const NONE: Neighbor = Neighbor {
    index: 0,
    distance: 0.0,
};

// The stones in line with stone idx of the first n, along each axis of its grid. None is in line both ways.
pub fn find_possible_neighbors(stones: [CapStone; 64], n: usize, idx: usize) -> NeighborLists
    requires { (n ≤ 64) × (idx < n) }
    ensures holds { Holds 64 result.hlist.all result.hlist.n (hlist (others_of (take n stones) idx)) }
    ensures holds_2 { Holds 64 result.vlist.all result.vlist.n (vlist (others_of (take n stones) idx)) }
{
    let cap = stones[idx];
    let c = cap.c;
    let mut hs = [NONE; 64];
    let mut h = 0;
    let mut vs = [NONE; 64];
    let mut v = 0;
    for i in 0..n {
        if i == idx {
            continue;
        }
        let other = stones[i];
        let at = offset_of(c, other.center);
        if is_in_line(at.u, at.v) {
            hs[h] = Neighbor {
                index: i,
                distance: at.v,
            };
            h += 1;
            continue;
        }
        if !is_in_line(at.v, at.u) {
            continue;
        }
        vs[v] = Neighbor {
            index: i,
            distance: at.u,
        };
        v += 1;
    }
    NeighborLists {
        hlist: Neighbors { all: hs, n: h },
        vlist: Neighbors { all: vs, n: v },
    }
}
