//! From a list of values back to the plan whose point it is, or the first thing that keeps it from being an integer point
//! of the network's program (docs/program.md, "From a point to its plan").
#![tactic(auto)]

mod broken;
mod decoding;
mod judge;
pub mod laws;

pub use broken::Broken;
pub use decoding::{Decoded, decode};
