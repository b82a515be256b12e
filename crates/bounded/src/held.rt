// The grids bounded so far, and one more.
ghost use Rattle.std.specs.Prelude.{◌≡◌, [], ◌∷◌, ◌++◌, ◌+◌, ◌<◌, replicate};
ghost use Rattle.bounded.specs.Held.{no_grid, grids_of, Held};

use crate::Grids;
use bounds::Grid;
use capstones::blank;
use refusals::Refusal;

// An array of blank grids.
pub fn blanks() -> [Grid; 31]
    ensures { result ≡ replicate 31 no_grid }
{
    let stone = blank();
    let nowhere = stone.center;
    let c = stone.c;
    [Grid {
        size: 0,
        c: c,
        bound0: nowhere,
        bound1: nowhere,
        bound2: nowhere,
        bound3: nowhere,
    }; 31]
}

// No grid yet.
pub fn none() -> Grids
    ensures { (grids_of result ≡ []) × Held result × (result.n ≡ 0) }
{
    Grids {
        all: blanks(),
        n: 0,
    }
}

// One grid more.
pub fn with_grid(held: Grids, grid: Grid) -> Grids
    requires { Held held × (held.n < 31) }
    ensures { (grids_of result ≡ grids_of held ++ (grid ∷ [])) × Held result × (result.n ≡ held.n + 1) }
{
    let mut all = held.all;
    let n = held.n;
    all[n] = grid;
    Grids { all: all, n: n + 1 }
}
