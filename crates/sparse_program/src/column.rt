//! Columns.

use listed::{Duplicate, Memory};

/// A column: its least and greatest value, and what one unit of it costs.
#[derive(Clone, Copy, Debug, PartialEq, Eq)]
pub struct Col {
    pub low: i64,
    pub high: i64,
    pub cost: i64,
}

impl Duplicate for Col {
    fn copy(&self) -> Result<Col, Memory> {
        Ok(*self)
    }
}
