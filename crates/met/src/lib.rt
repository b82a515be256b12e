// Which refusals the stages of detect can meet, after its first tests. Definitions and laws alone.
#![tactic(auto)]
