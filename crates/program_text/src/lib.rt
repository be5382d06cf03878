//! The text of a program in whole numbers, and points as texts: values of its columns, which are written and read.
#![tactic(auto)]

mod constants;
mod fault;
pub mod laws;
mod number;
mod point;
mod program;

pub use constants::MAX_POINT_BYTES;
pub use fault::PointFault;
pub use point::{read_point, write_point};
pub use program::write_program;
pub use sparse_program::{Memory, Point, Program};
