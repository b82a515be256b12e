// The groups found so far: which stones they use, and one group more.
ghost use Rattle.std.specs.Prelude.{◌≡◌, List, [], ◌∷◌, ◌++◌, ℕ, ◌≤◌, ◌<◌, set, replicate};
ghost use Rattle.refusals.specs.Finding.{found};
ghost use Rattle.laid.specs.Laid.{told};
ghost use Rattle.grids.specs.Grid.{meaning};
ghost use Rattle.setups.specs.Remember.{no_setup, Remembers, AllRemember};
ghost use Rattle.groupings.specs.Used.{names, is_used};
ghost use Rattle.groupings.specs.Groups.{after_trial};
ghost use Rattle.groupings.specs.Held.{groups_of, outcome, Laid, Holds};

use crate::{Groupings, Trio};
use refusals::Refusal;
use setups::{Answer, Setup, no_setups};

// Whether a trio names stone i.
#[tactic(auto, unfolding(crate::specs::Used::names))]
fn has(t: Trio, i: usize) -> bool
    ensures { result ≡ names t i }
{
    t.first == i || t.second == i || t.third == i
}

// Whether stone i is used.
pub fn is_used(held: Groupings, i: usize) -> bool
    requires { held.n ≤ 31 }
    ensures { result ≡ is_used (groups_of held) i }
{
    let last = held.n;
    for k in 0..last {
        let t = held.groups[k];
        if has(t, i) {
            return true;
        }
    }
    false
}

// No groups: none yet, or why there are none.
pub fn none(verdict: Result<(), Refusal>) -> Groupings
    ensures { (outcome result ≡ told verdict []) × Laid result × (result.setups ≡ replicate 31 no_setup) }
{
    let setups = no_setups();
    Groupings {
        groups: [Trio {
            first: 0,
            second: 0,
            third: 0,
        }; 31],
        setups: setups,
        n: 0,
        verdict: verdict,
    }
}

// The groups with one more, and its setup.
fn with_group(held: Groupings, t: Trio, setup: Setup) -> Groupings
    requires { Holds held × (held.n < 31) }
    ensures { (outcome result ≡ found (groups_of held ++ (t ∷ []))) × Laid result × (result.setups ≡ set held.setups held.n setup) }
{
    let mut groups = held.groups;
    let mut setups = held.setups;
    let n = held.n;
    groups[n] = t;
    setups[n] = setup;
    Groupings {
        groups: groups,
        setups: setups,
        n: n + 1,
        verdict: Ok(()),
    }
}

// The groups after a trial: one more, none, or a refusal. What is remembered stays true.
pub fn taken(held: Groupings, t: Trio, answer: Answer) -> Groupings
    requires { Holds held × (held.n < 31) }
    ensures { (outcome result ≡ after_trial (groups_of held) t (meaning answer.fit)) × Laid result × ((p : List ℕ) (w h : ℕ) → AllRemember p w h held.setups → Remembers p w h answer.setup → AllRemember p w h result.setups) }
{
    let fit = answer.fit;
    let setup = answer.setup;
    match fit {
        Ok(Some(_)) => with_group(held, t, setup),
        Ok(None) => held,
        Err(why) => none(Err(why)),
    }
}
