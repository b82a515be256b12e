// How lists stand in arrays: what is found first, blanks past it; and whether a verdict refuses nothing.
#![tactic(auto)]

ghost use Rattle.std.specs.Prelude.{◌≡◌};
ghost use Rattle.laid.specs.Laid.{goes};

use refusals::Refusal;

// Whether nothing is refused.
pub fn is_sound(verdict: Result<(), Refusal>) -> bool
    ensures { result ≡ goes verdict }
{
    match verdict {
        Ok(()) => true,
        Err(_) => false,
    }
}
