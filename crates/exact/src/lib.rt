// Where binary64 does whole numbers exactly. Laws alone: specs/ and proofs/.
#![tactic(auto)]
