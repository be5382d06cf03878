//! The plain types of the planner: networks of cells and signal plans; and what a valid network is.
#![tactic(auto)]

mod cell;
mod net;
mod plan;
mod signal;
mod validity;

pub use cell::{Cell, Gate, Kind, Out, Turns};
pub use listed::{Duplicate, Listed, Memory, Text};
pub use net::Net;
pub use plan::{Letter, Plan, Word};
pub use signal::{Phase, Signal};
pub use validity::valid;

/// Numbers of units, mostly one per cell or one per step.
pub type Units = Listed<u32>;
