//! The value of prices over a box: no point of the box that meets all rows costs less (docs/certificate.md, "Value"). It is computed
//! exactly, in whole numbers of 128 bits, and the prices need not be trusted.
#![tactic(auto)]

mod costed_box;
mod lawful;
mod priced;

pub use costed_box::{CostedBox, column_value};
pub use lawful::{are_pairs, are_prices};
pub use priced::{reduced_cost, value};
