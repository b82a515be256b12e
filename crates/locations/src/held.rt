// The grids located so far, and one more.
ghost use Rattle.std.specs.Prelude.{◌≡◌, [], ◌∷◌, ◌++◌, ◌+◌, ◌≤◌, ◌<◌, replicate};
ghost use Rattle.refusals.specs.Finding.{found};
ghost use Rattle.grids.specs.Grid.{meaning};
ghost use Rattle.laid.specs.Laid.{told, added};
ghost use Rattle.locations.specs.Held.{no_location, locations_of, outcome_of, LaidOut, Held};

use crate::Locations;
use capstones::blank;
use grids::SkewedGridLocation;
use refusals::Refusal;
use table::Table;

// An array of blank locations.
fn blanks() -> [SkewedGridLocation; 31]
    ensures { result ≡ replicate 31 no_location }
{
    let stone = blank();
    let c = stone.c;
    [SkewedGridLocation { size: 0, c: c }; 31]
}

// No grid: none yet, or why there is none.
pub fn none(verdict: Result<(), Refusal>, table: Table) -> Locations
    ensures { (outcome_of result ≡ told verdict []) × LaidOut result × (result.table ≡ table) × (result.n ≡ 0) }
{
    let all = blanks();
    Locations {
        all: all,
        n: 0,
        table: table,
        verdict: verdict,
    }
}

// One grid more.
fn with_grid(held: Locations, grid: SkewedGridLocation, table: Table) -> Locations
    requires { Held held × (held.n < 31) }
    ensures { (outcome_of result ≡ found (locations_of held ++ (grid ∷ []))) × LaidOut result × (result.table ≡ table) × (result.n ≡ held.n + 1) }
{
    let mut all = held.all;
    let n = held.n;
    all[n] = grid;
    Locations {
        all: all,
        n: n + 1,
        table: table,
        verdict: Ok(()),
    }
}

// No grid more.
fn with_table(held: Locations, table: Table) -> Locations
    requires { Held held }
    ensures { (outcome_of result ≡ found (locations_of held ++ [])) × LaidOut result × (result.table ≡ table) × (result.n ≡ held.n) }
{
    let all = held.all;
    Locations {
        all: all,
        n: held.n,
        table: table,
        verdict: Ok(()),
    }
}

// The grids after a group: one more, none, or a refusal.
pub fn taken(
    held: Locations,
    fit: Result<Option<SkewedGridLocation>, Refusal>,
    table: Table,
) -> Locations
    requires { Held held × (held.n < 31) }
    ensures { (outcome_of result ≡ added (locations_of held) (meaning fit)) × LaidOut result × (result.table ≡ table) × (result.n ≤ held.n + 1) }
{
    match fit {
        Ok(Some(grid)) => with_grid(held, grid, table),
        Ok(None) => with_table(held, table),
        Err(why) => none(Err(why), table),
    }
}
