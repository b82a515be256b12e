// Demand 3: what any run of lookups and claims keeps. Definitions in specs/ and laws in proofs/, no code.
#![tactic(auto)]
