// A grid part by part, as long as the parts that are left can lift the score over the best so far.
ghost use Rattle.std.specs.Prelude.{◌≡◌, length};
ghost use Rattle.cell_fitness.specs.Scores.{meaning, Scores};
ghost use Rattle.fitness.specs.Fitness.{fitness_of};
ghost use Rattle.beyond.specs.Capped.{capped};
ghost use Rattle.beyond.specs.Looks.{Tamed, two_marks, with_columns};

use crate::outdone::outdone;
use crate::rest;
use cell_fitness::Fitness;
use geometry::Perspective;

// The whole, once only the alignment patterns on the timing lines and the first mark are left.
fn completed(
    pic: &[u8],
    width: usize,
    height: usize,
    c: Perspective,
    size: usize,
    seen: Fitness,
) -> Fitness
    requires fact_1 { Tamed (length pic.now) width height size c }
    requires fact_2 { Scores (with_columns pic.now width height c size) 16000 seen }
    ensures { meaning result ≡ fitness_of pic.now width height size c }
{
    let version = (size - 17) / 4;
    let n = fitness::count(version);
    let edges = fitness::fitness_edges(pic, width, height, c, version, n);
    let first = fitness::fitness_capstone(pic, width, height, c, 0, 0);
    seen.plus(edges).plus(first)
}

// From the two marks that were looked at on: the timing lines, the other alignment patterns, and what is left.
fn past_marks(
    pic: &[u8],
    width: usize,
    height: usize,
    c: Perspective,
    size: usize,
    marks: Fitness,
    best: i32,
) -> Fitness
    requires fact_1 { Tamed (length pic.now) width height size c }
    requires fact_2 { Scores (two_marks pic.now width height c size) 882 marks }
    ensures { capped best (meaning result) ≡ capped best (fitness_of pic.now width height size c) }
{
    let version = (size - 17) / 4;
    let n = fitness::count(version);
    let lines = marks.plus(fitness::fitness_timing(pic, width, height, c, size as u32));
    if outdone(lines, rest::after_lines(n), best) {
        return Fitness::Score(best);
    }
    let seen = lines.plus(fitness::fitness_columns(pic, width, height, c, version, n));
    if outdone(seen, rest::after_columns(n), best) {
        return Fitness::Score(best);
    }
    completed(pic, width, height, c, size, seen)
}

// From the start on. The marks on the right and below, where an adjustment moves cells most, come first.
pub fn by_parts(
    pic: &[u8],
    width: usize,
    height: usize,
    c: Perspective,
    size: usize,
    best: i32,
) -> Fitness
    requires { Tamed (length pic.now) width height size c }
    ensures { capped best (meaning result) ≡ capped best (fitness_of pic.now width height size c) }
{
    let last = (size - 7) as u32;
    let left = rest::after_marks(size, fitness::count((size - 17) / 4));
    if outdone(Fitness::Score(0), 882 + left, best) {
        return Fitness::Score(best);
    }
    let right = fitness::fitness_capstone(pic, width, height, c, last, 0);
    if outdone(right, 441 + left, best) {
        return Fitness::Score(best);
    }
    let marks = right.plus(fitness::fitness_capstone(pic, width, height, c, 0, last));
    if outdone(marks, left, best) {
        return Fitness::Score(best);
    }
    past_marks(pic, width, height, c, size, marks, best)
}
