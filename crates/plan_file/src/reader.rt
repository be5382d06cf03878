//! From the bytes of a plan file to its plan, in one pass that stops at the first line at fault.

ghost use Rattle.std.specs.Prelude.{IfOk};
ghost use Rattle.traffic_model.specs.Runs.{IsAdmissiblePlan};
ghost use Rattle.refusals.specs.Memory.{OrMemory};
ghost use Rattle.plan_file.specs.Lines.{lines_in};
ghost use Rattle.plan_file.specs.inner.Scan.{at_first, scan};
ghost use Rattle.plan_file.specs.Spelled.{spelled_plan};

use crate::fault::PlanFault;
use crate::line::{HEAD, Line, line_of};
use crate::reading::Reading;
use ct_base::Plan;
use named_net::NamedNet;
use std::alloc::Global;
use texts::take_line;

/// The admissible plan that the text spells for the network, or the first line at fault.
pub fn read(alloc: Global, named: &NamedNet, text: &[u8]) -> Result<Plan, PlanFault>
    ensures value { OrMemory PlanFault.Memory (spelled_plan named.now text.now) result }
    ensures admissible { IfOk result (IsAdmissiblePlan named.now.net) }
{
    // What a named network keeps of its names: they fit it.
    let _names = named.names();
    match take_line(text) {
        Some((line, behind)) if line == HEAD => read_lines(alloc, named, behind),
        _ => Err(PlanFault::Form(1)),
    }
}

/// The plan of the lines behind the first, or the first of them at fault.
fn read_lines(alloc: Global, named: &NamedNet, text: &[u8]) -> Result<Plan, PlanFault>
    ensures { OrMemory PlanFault.Memory (scan named.now 2 at_first (lines_in text.now)) result }
{
    let mut reading = Reading::new(alloc);
    let mut rest = text;
    let mut number = 2;
    while let Some((bytes, behind)) = take_line(rest) {
        match line_of(bytes) {
            Line::End => {
                reading.take_end(alloc, named, number)?;
                return reading.into_plan(number + 1, behind);
            }
            line => reading.take(alloc, named, number, line)?,
        }
        rest = behind;
        number += 1;
    }
    Err(PlanFault::Form(number))
}
