// Document 01's examples marked P: one table (specs/), under one claim (proofs/).
#![tactic(auto)]
