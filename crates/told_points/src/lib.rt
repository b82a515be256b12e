// The calls on numbers and perspectives: round, create, map and unmap.
#![tactic(auto)]

pub mod perspective;
pub mod whole;
