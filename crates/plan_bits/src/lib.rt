//! The plan whose bits some values are: one bit for each letter that a signal may show in a step (docs/program.md, "Columns").
#![tactic(auto)]

mod letter;
mod plan;
mod word;

pub use plan::plan_of_bits;
