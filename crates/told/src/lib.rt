// What every call from another language shares: its answer is a number and no enum, since C reads it, and values go into a slice that the caller lends.
#![tactic(auto)]

pub mod place;
pub mod put;
