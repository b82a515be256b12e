// Trials: what is tried, and what is kept.
ghost use Rattle.std.specs.Prelude.{◌≡◌, ◌<◌, length};
ghost use Rattle.refusals.specs.Finding.{found};
ghost use Rattle.picture.specs.Sides.{Sized};
ghost use Rattle.cell_fitness.specs.Scores as fit;
ghost use Rattle.fitness.specs.Fitness.{GridSize, fitness_of};
ghost use Rattle.refine.specs.Refine.{meaning, scored, better, judged, trial, trials};

use crate::{Refined, adjust};
use cell_fitness::Fitness;
use geometry::Perspective;

// A perspective with its score.
pub fn scored(c: Perspective, f: Fitness) -> Option<Refined>
    ensures { meaning result ≡ scored c (fit.meaning f) }
{
    match f {
        Fitness::Score(score) => Some(Refined { c: c, score: score }),
        Fitness::Unplaced => None,
    }
}

// The other where its score is strictly higher, else the best so far.
fn better(best: Refined, other: Refined) -> Refined
    ensures { result ≡ better best other }
{
    if best.score < other.score {
        return other;
    }
    best
}

// The same, where the other may be refused.
fn judged(best: Refined, other: Option<Refined>) -> Option<Refined>
    ensures { meaning result ≡ judged best (meaning other) }
{
    Some(better(best, other?))
}

// Trial i, from the best so far.
fn tried(
    pic: &[u8],
    width: usize,
    height: usize,
    best: Refined,
    steps: Perspective,
    i: usize,
    size: usize,
) -> Option<Refined>
    requires fact_1 { Sized width height (length pic.now) }
    requires fact_2 { GridSize size }
    ensures { meaning result ≡ trial (fitness_of pic.now width height size) steps i (found best) }
{
    let old = best.c;
    let score = best.score;
    let new = adjust::adjusted(steps, old, i);
    judged(
        best,
        scored(
            new,
            beyond::fitness_beyond(pic, width, height, new, size, score),
        ),
    )
}

// Trial i, unless an earlier one was refused.
fn trial(
    pic: &[u8],
    width: usize,
    height: usize,
    earlier: Option<Refined>,
    steps: Perspective,
    i: usize,
    size: usize,
) -> Option<Refined>
    requires fact_1 { Sized width height (length pic.now) }
    requires fact_2 { GridSize size }
    ensures { meaning result ≡ trial (fitness_of pic.now width height size) steps i (meaning earlier) }
{
    tried(pic, width, height, earlier?, steps, i, size)
}

// The sixteen trials of a pass.
pub fn pass(
    pic: &[u8],
    width: usize,
    height: usize,
    start: Option<Refined>,
    steps: Perspective,
    size: usize,
) -> Option<Refined>
    requires fact_1 { Sized width height (length pic.now) }
    requires fact_2 { GridSize size }
    ensures { meaning result ≡ trials (fitness_of pic.now width height size) steps 16 (meaning start) }
{
    let mut best = start;
    for i in 0..16 {
        best = trial(pic, width, height, best, steps, i, size);
    }
    best
}
