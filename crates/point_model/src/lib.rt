//! Which integer points the program of a network has: those of its admissible plans, one for each, and no others. There is no
//! algorithm here: `specs/` has the definitions, and the functions are their laws.
#![tactic(auto)]

pub mod laws;
