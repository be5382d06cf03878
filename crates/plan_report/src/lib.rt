//! What is told of a plan: the exact text of the table of a replay, how far a delay is above a lower bound, and the lines of a search.
#![tactic(auto)]

mod gap;
mod search;
mod table;

pub use gap::{Gap, gap_of};
pub use search::summary;
pub use table::trace_csv;
