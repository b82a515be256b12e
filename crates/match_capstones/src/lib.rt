// Which two stones may be the other corners of a stone's symbol: its neighbours, in pairs, ranked (identify/match_capstones.rs).
#![tactic(auto)]

use refusals::Refusal;

mod lists;
mod rank;
mod sets;
mod sort;

pub use rank::find_and_rank_possible_neighbors;

// Another stone in line with the one at hand: its index, and how far off it is, in the stone's modules.
#[derive(Clone, Copy)]
struct Neighbor {
    index: usize,
    distance: f64,
}

// A list of neighbours: the first n of an array.
#[derive(Clone, Copy)]
struct Neighbors {
    all: [Neighbor; 64],
    n: usize,
}

// The neighbours of a stone: those beside it along one axis of its grid, and those along the other.
#[derive(Clone, Copy)]
struct NeighborLists {
    hlist: Neighbors,
    vlist: Neighbors,
}

// A neighbour of each list, by their indices, and how unlike their distances are.
#[derive(Clone, Copy)]
struct NeighborSet {
    score: f64,
    h: usize,
    v: usize,
}

// A list of such sets: the first n of an array.
#[derive(Clone, Copy)]
struct NeighborSets {
    all: [NeighborSet; 992],
    n: usize,
}

// Two stones, by their indices, that may be the other corners of a stone's symbol.
#[derive(Clone, Copy)]
pub struct Pair {
    pub h: usize,
    pub v: usize,
}

// The answer, and the pairs, the likeliest first. Past their count, and wherever there is a refusal, each pair is blank.
#[derive(Clone, Copy)]
pub struct Ranked {
    pub pairs: [Pair; 992],
    pub answer: Result<usize, Refusal>,
}
