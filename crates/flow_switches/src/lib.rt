//! The rows that say that a flow is the least of some terms, with a switch for each term that says which of them is the
//! first least one, and the row of a quotient that is rounded down.
#![tactic(auto)]

mod first_least;
mod floor;
pub mod laws;
mod move_rows;
mod sums;
mod term;

pub use first_least::least;
pub use floor::floor_row;
pub use move_rows::least_rows;
pub use term::Term;
