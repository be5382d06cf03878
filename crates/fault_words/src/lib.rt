//! What is told of a fault of a network or of a plan, in the words of its line.
#![tactic(auto)]

#[cfg(test)]
mod tests;
mod words;

pub use words::{network_text, plan_text};
