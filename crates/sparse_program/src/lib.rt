//! A program in whole numbers: columns with their bounds and rows of a few terms each, how it is built, and the bounds
//! that a search narrows. There is no search in it yet, and no traffic.
#![tactic(auto)]

mod bounds;
mod builder;
mod column;
mod columns;
pub mod laws;
pub mod limits;
mod program;
mod row;
mod terms;

pub use bounds::Bounds;
pub use builder::Builder;
pub use column::Col;
pub use listed::{Duplicate, Listed, Memory};
pub use program::Program;
pub use row::{Linear, Row};
pub use terms::Terms;

/// A value per column.
pub type Point = Listed<i64>;
