// The calls that paint a piece: one tells its counts, the other its rows.
#![tactic(auto)]

pub mod claims;
pub mod rows;
