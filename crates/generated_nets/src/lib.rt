//! A family of networks that anyone can make from a number: for examples, and for a look at how far a search comes.
#![tactic(auto)]

pub mod laws;
mod links;
mod network;
mod signals;

pub use network::generate;
