// What is told: the stones' count and the grids with their bounds, or a refusal.
ghost use Rattle.std.specs.Prelude.{◌≡◌};
ghost use Rattle.locations.specs.Held as locations;
ghost use Rattle.detect.specs.Telling.{tells_located, outcome, LaidOut};

use crate::Findings;
use bounded::bound_all;
use locations::Locations;
use refusals::Refusal;

// So many stones and these located grids with their bounds, or what refuses them.
pub fn with_locations(stones: usize, found: Locations) -> Result<Findings, Refusal>
    requires { locations.LaidOut found }
    ensures { (outcome result ≡ tells_located stones (locations.outcome_of found)) × LaidOut result }
{
    found.verdict?;
    let bounded = bound_all(found.all, found.n)?;
    let grids = bounded.all;
    Ok(Findings {
        stones: stones,
        grids: grids,
        n: bounded.n,
    })
}
