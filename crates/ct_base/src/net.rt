//! A network of cells and signals, and its parts by their numbers.

ghost use Rattle.std.specs.Prelude.{◌≡◌, ◌<◌, length};
ghost use Rattle.ct_base.specs.Access.{cell_of, signal_of};
ghost use Rattle.ct_base.specs.Validity.{IsValid, IsCell, IsSignal};

use crate::cell::Cell;
use crate::signal::Signal;
use listed::{Duplicate, Listed, Memory};

/// A network, over a horizon of `steps` steps. Cells and signals are numbered from 0.
#[derive(Debug, Drop)]
pub struct Net {
    pub steps: u32,
    pub cells: Listed<Cell>,
    pub signals: Listed<Signal>,
}

impl Net {
    /// The cell with a number, and what it keeps in a valid network.
    pub fn cell(&self, number: usize) -> &Cell
        requires valid { IsValid self.now }
        requires there { number < length self.now.cells }
        ensures value { result.now ≡ cell_of self.now.cells number }
        ensures valid { IsCell self.now number result.now }
    {
        &self.cells.as_slice()[number]
    }

    /// The signal with a number, and what it keeps in a valid network.
    pub fn signal(&self, number: usize) -> &Signal
        requires valid { IsValid self.now }
        requires there { number < length self.now.signals }
        ensures value { result.now ≡ signal_of self.now.signals number }
        ensures valid { IsSignal result.now }
    {
        &self.signals.as_slice()[number]
    }
}

impl Duplicate for Net {
    fn copy(&self) -> Result<Net, Memory> {
        Ok(Net {
            steps: self.steps,
            cells: self.cells.copy()?,
            signals: self.signals.copy()?,
        })
    }
}
