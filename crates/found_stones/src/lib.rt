// The stones that the search for marks finds, and what the search keeps. Definitions in specs/ and laws in proofs/, no code.
#![tactic(auto)]
