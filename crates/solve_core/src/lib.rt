//! The search for a plan and for a certificate of a bound (docs/search.md): branch and bound over boxes of the program (Land and Doig
//! 1960), best bound first, within a budget of nodes.
#![tactic(auto)]

mod constants;
mod decided;
mod emptiness;
mod fault;
pub mod laws;
mod lists;
mod pairs;
mod pricing;
mod running;
mod search;
mod solved;
mod solving;
mod turn;
mod unfixed;

pub use constants::MAX_WORK;
pub use fault::SolveFault;
pub use solved::{Solved, State};
pub use solving::{judge, solve};
