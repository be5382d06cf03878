//! The point of a plan in the program of its network: what each column counts while the plan runs (docs/program.md, "Points").
#![tactic(auto)]

mod encoding;

pub use encoding::encode;
