//! The replay of a signal plan: it moves the traffic of a network step by step, exactly as the model's
//! recursion says, and adds up the delay or keeps a line for each step and cell.
#![tactic(auto)]

mod changes;
mod flow;
mod kept;
pub mod laws;
mod lines;
mod moves;
mod replay;
mod whole_plan;

pub use changes::first_change;
pub use flow::{is_open, parcel, receiving};
pub use kept::KeptReplay;
pub use lines::{Line, Trace, trace};
pub use replay::{Replay, StepDelay, Totals};
pub use whole_plan::{delay, prefix_delay, show, totals};
