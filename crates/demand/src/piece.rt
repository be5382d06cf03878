//! A piece of constant demand.

use ct_base::{Duplicate, Memory};

/// A constant demand: `rate` units arrive at the end of each step from `first` on and before `until`.
#[derive(Clone, Copy, Debug, PartialEq, Eq)]
pub struct Piece {
    pub first: u32,
    pub until: u32,
    pub rate: u32,
}

impl Duplicate for Piece {
    fn copy(&self) -> Result<Piece, Memory> {
        Ok(*self)
    }
}
