// Sums of scores.
ghost use Rattle.std.specs.Prelude.{◌+◌, ◌^◌, ◌<◌};
ghost use Rattle.cell_fitness.specs.Score.{◌⊞◌, opposite, extent};
ghost use Rattle.cell_fitness.specs.Scores.{meaning, Scores};

use crate::Fitness;

impl Fitness {
    // Both together.
    pub fn plus(self, other: Fitness) -> Fitness
        requires { extent (meaning self) + extent (meaning other) < 2 ^ 31 }
        ensures { Scores (meaning self ⊞ meaning other) (extent (meaning self) + extent (meaning other)) result }
    {
        match self {
            Fitness::Score(a) => match other {
                Fitness::Score(b) => Fitness::Score(sizes::sum(a, b)),
                Fitness::Unplaced => Fitness::Unplaced,
            },
            Fitness::Unplaced => Fitness::Unplaced,
        }
    }

    // The score counted against.
    pub fn opposite(self) -> Fitness
        requires { extent (meaning self) < 2 ^ 31 }
        ensures { Scores (opposite (meaning self)) (extent (meaning self)) result }
    {
        match self {
            Fitness::Score(a) => Fitness::Score(sizes::opposite(a)),
            Fitness::Unplaced => Fitness::Unplaced,
        }
    }

    // The first, with the second counted against it.
    pub fn minus(self, other: Fitness) -> Fitness
        requires { extent (meaning self) + extent (meaning other) < 2 ^ 31 }
        ensures { Scores (meaning self ⊞ opposite (meaning other)) (extent (meaning self) + extent (meaning other)) result }
    {
        self.plus(other.opposite())
    }
}
