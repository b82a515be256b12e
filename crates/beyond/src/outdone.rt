// Whether a score can still exceed the best so far.
ghost use Rattle.std.specs.Prelude.{◌≡◌, ◌≤◌, nat_abs, pos, ◌+ℤ◌};
ghost use Rattle.std.specs.Int.Signed.{le_z};
ghost use Rattle.cell_fitness.specs.Score.{extent};
ghost use Rattle.cell_fitness.specs.Scores.{meaning};
ghost use Rattle.beyond.specs.Capped.{outdone};

use cell_fitness::Fitness;

// A score, where as much as `rest` comes to it, does not exceed the best.
fn is_low(score: i32, rest: usize, best: i32) -> bool
    requires fact_1 { nat_abs score ≤ 20000 }
    requires fact_2 { rest ≤ 20000 }
    ensures { result ≡ le_z (score +ℤ pos rest) best }
{
    sizes::sum(score, rest as i32) <= best
}

// The same of a score that may be refused, which is none.
pub fn outdone(seen: Fitness, rest: usize, best: i32) -> bool
    requires fact_1 { extent (meaning seen) ≤ 20000 }
    requires fact_2 { rest ≤ 20000 }
    ensures { result ≡ outdone best rest (meaning seen) }
{
    match seen {
        Fitness::Score(score) => is_low(score, rest, best),
        Fitness::Unplaced => false,
    }
}
