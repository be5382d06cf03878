//! Refusals as lists: a rule lists every place that breaks it, in the order of the walk, and the first place of all
//! decides. There is no code here: `specs/` has the definitions, and `proofs/` what a walk over places needs.
#![tactic(auto)]
