// The alignment patterns of a version.
ghost use Rattle.std.specs.Prelude.{◌≡◌, ◌+◌, ◌≤◌, ◌<◌, length};
ghost use Rattle.picture.specs.Sides.{Sized};
ghost use Rattle.version_db.specs.AnnexE.{count_of, position_of};
ghost use Rattle.fitness.specs.Expected.{edge, edges, column, columns};
ghost use Rattle.cell_fitness.specs.Scores.{Scores};
ghost use Rattle.fitness.specs.Fitness.{Amid, score_of};

use crate::rings::fitness_apat;
use cell_fitness::Fitness;
use geometry::Perspective;

// How many alignment positions a version has (ISO/IEC 18004, Annex E).
pub fn count(version: usize) -> usize
    requires { version ≤ 40 }
    ensures { (result ≡ count_of version) × (result ≤ 7) }
{
    if version < 2 {
        return 0;
    }
    version / 7 + 2
}

// Its position k, counted from 0.
fn place(version: usize, k: usize) -> u32
    requires fact_1 { version ≤ 40 }
    requires fact_2 { k < count_of version }
    ensures { (result ≡ position_of version k) × Amid 2 result }
{
    version_db::position(version, k) as u32
}

// The two patterns on the timing lines at a position.
fn fitness_edge(pic: &[u8], width: usize, height: usize, c: Perspective, at: u32) -> Fitness
    requires fact_1 { Sized width height (length pic.now) }
    requires fact_2 { Amid 2 at }
    ensures { Scores (score_of pic.now width height c (edge at)) 450 result }
{
    let left = fitness_apat(pic, width, height, c, 6, at);
    left.plus(fitness_apat(pic, width, height, c, at, 6))
}

// Those on the timing lines, between the marks.
pub fn fitness_edges(
    pic: &[u8],
    width: usize,
    height: usize,
    c: Perspective,
    version: usize,
    n: usize,
) -> Fitness
    requires fact_1 { Sized width height (length pic.now) }
    requires fact_2 { version ≤ 40 }
    requires fact_3 { (n ≡ count_of version) × (n ≤ 7) }
    ensures { Scores (score_of pic.now width height c (edges version)) 3000 result }
{
    let mut score = Fitness::Score(0);
    for k in 1..n.saturating_sub(1) {
        score = score.plus(fitness_edge(pic, width, height, c, place(version, k)));
    }
    score
}

// Those in the column cx, from the second position on.
fn fitness_column(
    pic: &[u8],
    width: usize,
    height: usize,
    c: Perspective,
    version: usize,
    n: usize,
    cx: u32,
) -> Fitness
    requires fact_1 { Sized width height (length pic.now) }
    requires fact_2 { version ≤ 40 }
    requires fact_3 { (n ≡ count_of version) × (n ≤ 7) }
    requires fact_4 { Amid 2 cx }
    ensures { Scores (score_of pic.now width height c (column version cx)) 1350 result }
{
    let mut score = Fitness::Score(0);
    for k in 1..n {
        score = score.plus(fitness_apat(pic, width, height, c, cx, place(version, k)));
    }
    score
}

// Those in all columns, from the second position on.
pub fn fitness_columns(
    pic: &[u8],
    width: usize,
    height: usize,
    c: Perspective,
    version: usize,
    n: usize,
) -> Fitness
    requires fact_1 { Sized width height (length pic.now) }
    requires fact_2 { version ≤ 40 }
    requires fact_3 { (n ≡ count_of version) × (n ≤ 7) }
    ensures { Scores (score_of pic.now width height c (columns version)) 9000 result }
{
    let mut score = Fitness::Score(0);
    for k in 1..n {
        let cx = place(version, k);
        score = score.plus(fitness_column(pic, width, height, c, version, n, cx));
    }
    score
}
