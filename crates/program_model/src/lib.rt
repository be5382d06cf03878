//! The program of a network: its columns by what they count, its rows, and the point of a plan. There is no algorithm
//! here: `specs/` has the definitions, and the functions are their laws.
#![tactic(auto)]

pub mod laws;
