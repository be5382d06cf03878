//! Which words a signal may show: whether one is admissible, the word that runs become, and the runs of a word.
#![tactic(auto)]

mod expansion;
mod fault;
mod phase;
mod run_list;
mod scan;

pub use expansion::{expand, judge_run};
pub use fault::RunFault;
pub use run_list::{RunList, runs};
pub use scan::{Scan, admissible};
