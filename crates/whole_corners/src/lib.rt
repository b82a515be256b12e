// The perspective of whole corners, bit for bit. Laws alone: specs/ and proofs/.
#![tactic(auto)]
