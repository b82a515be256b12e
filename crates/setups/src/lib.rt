// Setups that are remembered: detect fits each group twice, and a setup of the same corners and the same size comes to the same grid. What is remembered is no finding: no answer depends on it.
#![tactic(auto)]

ghost use Rattle.std.specs.Prelude.{◌≡◌, true, List, ℕ, length, replicate};
ghost use Rattle.picture.specs.Sides.{Sized};
ghost use Rattle.grids.specs.Grid.{meaning, Modules, set_up};
ghost use Rattle.setups.specs.Remember.{no_setup, MadeOf, Remembers};

use capstones::blank;
use grids::{SkewedGridLocation, setup_perspective};
use points::Point;
use refusals::Refusal;

// What is remembered of a setup: its corners, its size, and the grid that it gave. Of size 0, which no symbol has, it is blank.
#[derive(Clone, Copy)]
pub struct Setup {
    pub p0: Point,
    pub p1: Point,
    pub p2: Point,
    pub p3: Point,
    pub size: usize,
    pub grid: SkewedGridLocation,
}

// What corners come to, and what is remembered of it.
#[derive(Clone, Copy)]
pub struct Answer {
    pub fit: Result<Option<SkewedGridLocation>, Refusal>,
    pub setup: Setup,
}

// The blank setup.
pub fn no_setup() -> Setup
    ensures { result ≡ no_setup }
{
    let stone = blank();
    let nowhere = stone.center;
    let c = stone.c;
    let grid = SkewedGridLocation { size: 0, c: c };
    Setup {
        p0: nowhere,
        p1: nowhere,
        p2: nowhere,
        p3: nowhere,
        size: 0,
        grid: grid,
    }
}

// An array of blank setups.
pub fn no_setups() -> [Setup; 31]
    ensures { result ≡ replicate 31 no_setup }
{
    let none = no_setup();
    [none; 31]
}

// Whether a setup was made of these corners, with this size.
fn is_made_of(s: Setup, p0: Point, p1: Point, p2: Point, p3: Point, size: usize) -> bool
    ensures { result ≡ true → MadeOf s p0 p1 p2 p3 size }
{
    s.size == size && s.p0 == p0 && s.p1 == p1 && s.p2 == p2 && s.p3 == p3
}

// What is remembered after a setup: its grid if there is one, and what was known else.
fn remembered(
    fit: Result<Option<SkewedGridLocation>, Refusal>,
    p0: Point,
    p1: Point,
    p2: Point,
    p3: Point,
    size: usize,
    known: Setup,
) -> Setup
    ensures { (p : List ℕ) (w h : ℕ) → meaning fit ≡ set_up p w h size p0 p1 p2 p3 → Remembers p w h known → Remembers p w h result }
{
    match fit {
        Ok(Some(grid)) => Setup {
            p0: p0,
            p1: p1,
            p2: p2,
            p3: p3,
            size: size,
            grid: grid,
        },
        Ok(None) => known,
        Err(_) => known,
    }
}

// The grid of these corners: the known one where it was made of them, and set up else.
pub fn set_up(
    pic: &[u8],
    width: usize,
    height: usize,
    p0: Point,
    p1: Point,
    p2: Point,
    p3: Point,
    size: usize,
    known: Setup,
) -> Answer
    requires fact_1 { Sized width height (length pic.now) }
    requires fact_2 { Modules size }
    requires fact_3 { Remembers pic.now width height known }
    ensures { (meaning result.fit ≡ set_up pic.now width height size p0 p1 p2 p3) × Remembers pic.now width height result.setup }
{
    if is_made_of(known, p0, p1, p2, p3, size) {
        let grid = known.grid;
        return Answer {
            fit: Ok(Some(grid)),
            setup: known,
        };
    }
    let fit = setup_perspective(pic, width, height, p0, p1, p2, p3, size);
    let setup = remembered(fit, p0, p1, p2, p3, size, known);
    Answer {
        fit: fit,
        setup: setup,
    }
}
