// What proofs by hand share: an element of an array in memory, and of its machine values. Laws alone: proofs/.
#![tactic(auto)]
