//! The text of a plan: reads it line by line, or names the first line at fault, and writes the one text of a plan.
#![tactic(auto)]

mod fault;
pub mod laws;
mod line;
mod reader;
mod reading;
mod writer;

pub use fault::PlanFault;
pub use phase_rules::RunFault;
pub use reader::read;
pub use writer::{write, write_text};
