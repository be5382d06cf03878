//! The seed of a network: the prices that a search begins with, by which each unit pays for each step that it is held back
//! (docs/search.md, "The seed"). Nothing of it is computed from a box, and its value over every box is at least 0.
#![tactic(auto)]

pub mod laws;
mod prices;

pub use prices::seed;
