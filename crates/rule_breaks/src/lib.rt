//! Which bits meet the rule rows (docs/program.md, "Rule rows"): a law that these are the bits of admissible plans, and the first
//! row that some bits break.
#![tactic(auto)]

mod breaks;
mod lasting;
pub mod laws;
mod letters;
mod part;
mod walk;

pub use breaks::RuleBreak;
pub use part::are_bits;
pub use walk::broken_row;
