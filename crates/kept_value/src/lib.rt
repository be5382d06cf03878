//! The value of prices over a box, kept where a price changes or a bound narrows: each change touches the columns of one row, or one
//! column, alone. So a search that makes many small changes reads the value after each (docs/certificate.md, "Value").
#![tactic(auto)]

mod charged;
mod kept;

pub use charged::Slopes;
pub use kept::KeptValue;
