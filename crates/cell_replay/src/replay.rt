//! A replay that stands at some step of a run.

ghost use Rattle.std.specs.Prelude.{◌≡◌, ◌<◌, ◌≤◌, length, sum, slice_index, vec_len, IfOk};
ghost use Rattle.cell_replay.specs.Standing.{IsReplayOf, at_start, one_step_on};
ghost use Rattle.ct_base.specs.Validity.{IsValid};
ghost use Rattle.traffic_model.specs.Delay.{step_delay};
ghost use Rattle.traffic_model.specs.Occupancy.{initial_units};

use crate::moves::advance;
use ct_base::{Cell, Letter, Memory, Net};
use std::alloc::Global;
use std::marker::Model;

/// What the cells of a network hold at a step, and what left each of them in the step before.
#[derive(Debug, Drop)]
pub struct Replay {
    step: u32,
    units: Vec<u32>,
    outflows: Vec<u32>,
}

impl Model for Replay {
    ghost use Rattle.std.specs.Prelude.{◌≡◌, ◌≤◌, vec_len};
    ghost use Rattle.cell_replay.specs.Standing.{Standing};

    ghost Value = { Standing };

    ghost view = { λ a. record { step = a.step; units = a.units.items; outflows = a.outflows.items } };

    ghost invariant = { λ a. vec_len a.units ≤ 256 };
}

/// The delay of one step.
#[derive(Clone, Copy, Debug, PartialEq, Eq)]
pub struct StepDelay {
    /// The units that did not leave their cell in the step.
    pub units: u64,
}

/// What a whole run of a plan comes to.
#[derive(Clone, Copy, Debug, PartialEq, Eq)]
pub struct Totals {
    /// The delay over all cells and steps, in units times steps.
    pub delay: u64,
    /// The units that the cells hold at the end.
    pub left: u64,
}

impl Replay {
    /// A replay that stands at step 0.
    pub fn start(alloc: Global, net: &Net) -> Result<Replay, Memory>
        requires { IsValid net.now }
        ensures value { IfOk result (λ replay. replay ≡ at_start net.now.cells) }
        ensures stands { IfOk result (IsReplayOf net.now) }
    {
        Ok(Replay {
            step: 0,
            units: initial_units(alloc, net.cells.as_slice())?,
            outflows: vec![in alloc; 0; net.cells.len()]?,
        })
    }

    /// Moves one step, under the letter that each signal shows, and answers the delay of the step.
    /// It takes no memory.
    pub fn step(&mut self, net: &Net, letters: &[Letter]) -> StepDelay
        requires valid { IsValid net.now }
        requires stands { IsReplayOf net.now self.old }
        requires letters { length letters.now ≡ length net.now.signals }
        requires before_the_end { self.old.step < net.now.steps }
        ensures moves { self.new ≡ one_step_on net.now.cells letters.now self.old }
        ensures delay { result.units ≡ step_delay net.now.cells letters.now self.old.units }
        ensures stands { IsReplayOf net.now self.new }
    {
        let units = self.units.as_mut_slice();
        let delay = advance(net, self.step, letters, units, self.outflows.as_mut_slice());
        self.step += 1;
        StepDelay { units: delay }
    }

    /// The step at which the replay stands.
    pub fn now(&self) -> u32
        ensures { result ≡ self.now.step }
    {
        self.step
    }

    /// The units that a cell holds.
    pub fn occupancy(&self, cell: u32) -> u32
        requires { cell < length self.now.units }
        ensures { result ≡ slice_index self.now.units cell }
    {
        self.units[cell as usize]
    }

    /// The units that left a cell in the step before; 0 at step 0.
    pub fn outflow(&self, cell: u32) -> u32
        requires { cell < length self.now.outflows }
        ensures { result ≡ slice_index self.now.outflows cell }
    {
        self.outflows[cell as usize]
    }

    /// The units that each cell holds.
    pub fn units(&self) -> &[u32]
        ensures { result.now ≡ self.now.units }
    {
        self.units.as_slice()
    }

    /// The units that left each cell in the step before; 0 at step 0.
    pub(crate) fn outflows(&self) -> &[u32]
        ensures { result.now ≡ self.now.outflows }
    {
        self.outflows.as_slice()
    }

    /// The units in all cells.
    pub fn left(&self) -> u64
        ensures { result ≡ sum self.now.units }
    {
        total(self.units.as_slice())
    }
}

/// The sum of some numbers.
fn total(units: &[u32]) -> u64
    requires { length units.now ≤ 256 }
    ensures { result ≡ sum units.now }
{
    units.iter().map(|held| u64::from(*held)).sum()
}

/// What each cell holds at step 0.
pub(crate) fn initial_units(alloc: Global, cells: &[Cell]) -> Result<Vec<u32>, Memory>
    ensures value { IfOk result (λ units. units.items ≡ initial_units cells.now) }
    ensures length { IfOk result (λ units. vec_len units ≡ length cells.now) }
{
    let mut units = Vec::with_capacity(alloc, cells.len())?;
    for cell in cells {
        units.push(cell.initial)?;
    }
    Ok(units)
}
