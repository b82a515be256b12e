// Which stones corner the same symbol: groups of three, each tried on a copy of the picture (prepare.rs, `find_groupings`).
#![tactic(auto)]

use refusals::Refusal;
use setups::Setup;

mod centres;
mod held;
mod pairs;
mod trial;

pub use centres::find_groupings;
pub use pairs::group_of;

// A group by the indices of its stones: the first and the third are beside the second, its centre.
#[derive(Clone, Copy)]
pub struct Trio {
    pub first: usize,
    pub second: usize,
    pub third: usize,
}

// What a search for groups has found: the groups, which are the first n of the array, or why it refuses. Every other place of the array is blank. Beside each group stands what its trial set up, which the final pass may take again; it is no finding.
#[derive(Clone, Copy)]
pub struct Groupings {
    pub groups: [Trio; 31],
    pub setups: [Setup; 31],
    pub n: usize,
    pub verdict: Result<(), Refusal>,
}
