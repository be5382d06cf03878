//! Rows, and the linear expressions that they are made of.

use crate::terms::Terms;
use listed::{Duplicate, Memory};

/// A row: its terms' sum is equal to the right side, or at least that.
#[derive(Debug, Drop)]
pub struct Row {
    pub equal: bool,
    /// The right side.
    pub rhs: i64,
    pub terms: Terms,
}

/// A constant and the sum of some terms.
#[derive(Debug, Drop)]
pub struct Linear {
    pub constant: i64,
    pub terms: Terms,
}

impl Duplicate for Row {
    fn copy(&self) -> Result<Row, Memory> {
        Ok(Row {
            equal: self.equal,
            rhs: self.rhs,
            terms: self.terms.copy()?,
        })
    }
}

impl Duplicate for Linear {
    fn copy(&self) -> Result<Linear, Memory> {
        Ok(Linear {
            constant: self.constant,
            terms: self.terms.copy()?,
        })
    }
}
