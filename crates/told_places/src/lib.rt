// What several calls tell, into the places of lent slices: a point, a perspective's coefficients, a region table; and the number of a verdict.
// And a perspective and a region table out of them.
#![tactic(auto)]

pub mod coefficients;
pub mod entries;
pub mod lent;
pub mod spots;

ghost use Rattle.std.specs.Prelude.{◌≡◌};
ghost use Rattle.told_places.specs.Values.{status_of};

use refusals::Refusal;

// 0, or the number of a refusal.
pub fn status_of(verdict: Result<(), Refusal>) -> u8
    ensures { result ≡ status_of verdict }
{
    match verdict {
        Ok(()) => 0,
        Err(why) => u8::from(why),
    }
}
