//! The ascent: it raises the value of lawful prices over a box by changes of one price by a power of two, until the value is enough, no
//! such change raises it by much, or it has risen by one unit of delay a row (docs/search.md, "The ascent").
#![tactic(auto)]

mod ascent;
mod constants;
mod neighbours;
mod settled;
mod turn;

pub use ascent::{End, work};
pub use constants::{LEAST_GAIN, MOST_POWER};
