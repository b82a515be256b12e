// Rings of cells, and what is made of them: marks and alignment patterns.
ghost use Rattle.std.specs.Prelude.{◌+◌, ◌*◌, ◌≤◌, ◌<◌, length};
ghost use Rattle.picture.specs.Sides.{Sized};
ghost use Rattle.fitness.specs.Expected.{dark, sides, ring, mark, pattern};
ghost use Rattle.cell_fitness.specs.Scores.{Scores};
ghost use Rattle.fitness.specs.Fitness.{Amid, score_of};

use cell_fitness::Fitness;
use cell_fitness::cell::fitness_cell;
use geometry::Perspective;

// The i-th cell on each side of the ring at distance `radius` from (cx, cy), as if they were expected dark.
fn fitness_sides(
    pic: &[u8],
    width: usize,
    height: usize,
    c: Perspective,
    cx: u32,
    cy: u32,
    radius: u32,
    i: u32,
) -> Fitness
    requires fact_1 { Sized width height (length pic.now) }
    requires fact_2 { Amid radius cx }
    requires fact_3 { Amid radius cy }
    requires fact_4 { i < 2 * radius }
    ensures { Scores (score_of pic.now width height c (sides dark cx cy radius i)) 36 result }
{
    let above = fitness_cell(pic, width, height, c, cx - radius + i, cy - radius);
    let left = fitness_cell(pic, width, height, c, cx - radius, cy + radius - i);
    let right = fitness_cell(pic, width, height, c, cx + radius, cy - radius + i);
    let below = fitness_cell(pic, width, height, c, cx + radius - i, cy + radius);
    above.plus(left).plus(right).plus(below)
}

// The ring of cells at distance `radius` from (cx, cy), as if they were expected dark.
fn fitness_ring(
    pic: &[u8],
    width: usize,
    height: usize,
    c: Perspective,
    cx: u32,
    cy: u32,
    radius: u32,
) -> Fitness
    requires fact_1 { Sized width height (length pic.now) }
    requires fact_2 { Amid radius cx }
    requires fact_3 { Amid radius cy }
    ensures { Scores (score_of pic.now width height c (ring dark cx cy radius)) (72 * radius) result }
{
    let mut score = Fitness::Score(0);
    for i in 0..2 * radius {
        score = score.plus(fitness_sides(pic, width, height, c, cx, cy, radius, i));
    }
    score
}

// The alignment pattern whose middle is (cx, cy).
pub fn fitness_apat(
    pic: &[u8],
    width: usize,
    height: usize,
    c: Perspective,
    cx: u32,
    cy: u32,
) -> Fitness
    requires fact_1 { Sized width height (length pic.now) }
    requires fact_2 { Amid 2 cx }
    requires fact_3 { Amid 2 cy }
    ensures { Scores (score_of pic.now width height c (pattern cx cy)) 225 result }
{
    let middle = fitness_cell(pic, width, height, c, cx, cy);
    let inner = fitness_ring(pic, width, height, c, cx, cy, 1);
    let outer = fitness_ring(pic, width, height, c, cx, cy, 2);
    middle.minus(inner).plus(outer)
}

// The mark whose first cell is (x, y).
pub fn fitness_capstone(
    pic: &[u8],
    width: usize,
    height: usize,
    c: Perspective,
    x: u32,
    y: u32,
) -> Fitness
    requires fact_1 { Sized width height (length pic.now) }
    requires fact_2 { (x + 7 ≤ 177) × (y + 7 ≤ 177) }
    ensures { Scores (score_of pic.now width height c (mark x y)) 441 result }
{
    let middle = fitness_cell(pic, width, height, c, x + 3, y + 3);
    let stone = fitness_ring(pic, width, height, c, x + 3, y + 3, 1);
    let gap = fitness_ring(pic, width, height, c, x + 3, y + 3, 2);
    let ring = fitness_ring(pic, width, height, c, x + 3, y + 3, 3);
    middle.plus(stone).minus(gap).plus(ring)
}
