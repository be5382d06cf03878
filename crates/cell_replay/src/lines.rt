//! The table of a replay: what each cell holds, sends and keeps back in each step.

ghost use Rattle.std.specs.Prelude.{◌≡◌, ℕ, ◌++◌, ◌<◌, ◌≤◌, IfOk, OnOk, length, slice_index};
ghost use Rattle.cell_replay.specs.inner.Moves.{line_of};
ghost use Rattle.cell_replay.specs.Standing.{IsReplayOf, one_step_on};
ghost use Rattle.cell_replay.specs.Trace.{line_from, trace_of};
ghost use Rattle.listed.specs.Below.{table_of};
ghost use Rattle.ct_base.specs.Validity.{IsValid};
ghost use Rattle.traffic_model.specs.Delay.{letters_at};
ghost use Rattle.traffic_model.specs.Runs.{HasWords};

use crate::replay::Replay;
use crate::whole_plan::show;
use ct_base::{Letter, Listed, Memory, Net, Plan};
use std::alloc::Global;

/// One cell in one step.
#[derive(Clone, Copy, Debug, PartialEq, Eq)]
pub struct Line {
    /// The step, from 0.
    pub step: u32,
    /// The number of the cell, from 0.
    pub cell: u32,
    /// The units that the cell holds as the step begins.
    pub units: u32,
    /// The units that leave it in the step.
    pub out: u32,
    /// The units that stay in it.
    pub delay: u32,
}

/// The lines of a replay: step by step, and in a step cell by cell.
pub type Trace = Listed<Line>;

/// The lines of a plan's replay over all steps of the network: step by step, and in a step cell by cell.
pub fn trace(alloc: Global, net: &Net, plan: &Plan) -> Result<Trace, Memory>
    requires valid { IsValid net.now }
    requires words { HasWords net.now plan.now }
    ensures { IfOk result (λ trace. trace
        ≡ trace_of net.now.cells (letters_at plan.now.words) net.now.steps) }
{
    let cells = net.cells.len();
    let mut lines = Vec::with_capacity(alloc, net.steps as usize * cells)?;
    let mut held = vec![in alloc; 0; cells]?;
    let mut letters = vec![in alloc; Letter::Clear(0); plan.words.len()]?;
    let mut replay = Replay::start(alloc, net)?;
    for step in 0..net.steps {
        let shown = letters.as_mut_slice();
        show(plan.words.as_slice(), step, shown);
        add_step(&mut lines, &mut replay, held.as_mut_slice(), net, shown)?;
    }
    Ok(Listed::of(lines))
}

/// Moves a replay one step, and adds the lines of that step. What the cells hold as the step begins is
/// kept in `held`.
fn add_step(
    lines: &mut Vec<Line>,
    replay: &mut Replay,
    held: &mut [u32],
    net: &Net,
    letters: &[Letter],
) -> Result<(), Memory>
    requires valid { IsValid net.now }
    requires stands { IsReplayOf net.now replay.old }
    requires letters { length letters.now ≡ length net.now.signals }
    requires before_the_end { replay.old.step < net.now.steps }
    requires held { length held.old ≡ length net.now.cells }
    ensures lines { OnOk result (lines.new.items ≡ lines.old.items
        ++ table_of (length net.now.cells) (line_from net.now.cells letters.now replay.old.step replay.old.units)) }
    ensures moves { replay.new ≡ one_step_on net.now.cells letters.now replay.old }
    ensures stands { IsReplayOf net.now replay.new }
{
    held.copy_from_slice(replay.units());
    let step = replay.now();
    let _delay = replay.step(net, letters);
    add_lines(lines, step, held, replay.outflows())
}

/// Adds the lines of a step, from what each cell holds as it begins and what leaves each in it.
fn add_lines(
    lines: &mut Vec<Line>,
    step: u32,
    units: &[u32],
    outflows: &[u32],
) -> Result<(), Memory>
    requires few { length units.now ≤ 256 }
    requires outflows { length outflows.now ≡ length units.now }
    requires held { (i : ℕ) → i < length units.now → slice_index outflows.now i ≤ slice_index units.now i }
    ensures { OnOk result (lines.new.items ≡ lines.old.items
        ++ table_of (length units.now) (line_of step units.now outflows.now)) }
{
    for (number, held) in units.iter().enumerate() {
        let out = outflows[number];
        lines.push(Line {
            step,
            cell: number as u32,
            units: *held,
            out,
            delay: *held - out,
        })?;
    }
    Ok(())
}
