// The calls on lines and scans.
#![tactic(auto)]

pub mod line;
pub mod scan;
