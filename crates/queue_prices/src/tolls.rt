//! Tolls, the multipliers of the relaxation.

ghost use Rattle.std.specs.Prelude.{IfOk};
ghost use Rattle.queue_prices.specs.Tolls.{IsFree};

use crate::places::{place, zeros};
use ct_base::{Memory, Net};
use std::alloc::Global;

/// What is asked, in 1024ths of a unit of delay: for each unit of flow (at a diverge each parcel) that passes a gate, a number for each cell
/// of each step, step by step; and for each unit that a rule row lacks, by the row's number in the program. None is below 0.
#[derive(Debug, Drop)]
pub struct Tolls {
    pub gates: Vec<i64>,
    pub rules: Vec<i64>,
}

impl Tolls {
    /// No toll anywhere, on a network whose program has so many rule rows.
    pub(crate) fn free(alloc: Global, net: &Net, rules: u32) -> Result<Tolls, Memory>
        ensures { IfOk result IsFree }
    {
        Ok(Tolls {
            gates: zeros(alloc, place(net.cells.len(), net.steps, 0))?,
            rules: zeros(alloc, rules as usize)?,
        })
    }

    /// The same tolls again.
    pub(crate) fn copy(&self, alloc: Global) -> Result<Tolls, Memory> {
        Ok(Tolls {
            gates: self.gates.as_slice().to_vec(alloc)?,
            rules: self.rules.as_slice().to_vec(alloc)?,
        })
    }

    /// Takes other tolls of the same network.
    pub(crate) fn take(&mut self, other: &Tolls) {
        take(self.gates.as_mut_slice(), other.gates.as_slice());
        take(self.rules.as_mut_slice(), other.rules.as_slice());
    }
}

/// Takes the numbers of another table of the same size.
fn take(values: &mut [i64], other: &[i64]) {
    for (value, other) in values.iter_mut().zip(other) {
        *value = *other;
    }
}
