//! Demand as a file lists it, and as it arrives: pieces of constant demand, and their sum in each step.
#![tactic(auto)]

mod fault;
mod judge;
mod piece;
mod sums;

pub use fault::DemandFault;
pub use piece::Piece;
pub use sums::spread;
