//! A valid network of cells with the names that its file gives: of its links, signals and phases, and where each cell lies.
#![tactic(auto)]

pub mod laws;
mod named;
mod names;

pub use named::NamedNet;
pub use names::{Names, Place, SignalNames};
