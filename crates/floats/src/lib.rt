// The operations of f64, by short names. Definitions alone: specs/.
#![tactic(auto)]
