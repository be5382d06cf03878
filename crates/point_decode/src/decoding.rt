//! From a list of values to its plan.

ghost use Rattle.std.specs.Prelude.{◌≡◌, IfOk, Some};
ghost use Rattle.refusals.specs.Faults.{unless};
ghost use Rattle.refusals.specs.Memory.{OrMemory};
ghost use Rattle.ct_base.specs.Validity.{IsValid};
ghost use Rattle.traffic_model.specs.Runs.{IsAdmissiblePlan};
ghost use Rattle.program_model.specs.Points.{IsIntegerPoint, point_of, program_of};
ghost use Rattle.point_model.specs.PlansOfPoints.{IsPlanOf};
ghost use Rattle.point_decode.specs.Breaks.{point_breaks};
ghost use Rattle.point_decode.specs.Decoded.{decoded, plan_shown};
ghost use Rattle.point_decode.specs.declared.broken.Broken.TheVariants.{Memory as WantOfMemory};

use crate::broken::Broken;
use crate::judge::is_integer_point;
use crate::laws::unbroken_lists_are_integer_points;
use cell_replay::delay;
use ct_base::{Memory, Net, Plan};
use plan_bits::plan_of_bits;
use point_model::laws::points_are_points_of_plans;
use sparse_program::Program;
use std::alloc::Global;

/// The plan whose point a list of values is, with its delay.
#[derive(Debug, Drop)]
pub struct Decoded {
    pub plan: Plan,
    /// The delay of the plan's replay, in units times steps.
    pub delay: u64,
}

/// The plan whose point the values are, with its delay, or the first thing that keeps them from being an integer point of
/// the network's program. The values may be any; the program is the network's.
#[tactic(auto, unfolding(crate::specs::Decoded::decoded))]
pub fn decode(alloc: Global, net: &Net, program: &Program, point: &[i64]) -> Result<Decoded, Broken>
    requires valid { IsValid net.now }
    requires program { program.now ≡ program_of net.now }
    ensures value { OrMemory WantOfMemory (decoded net.now point.now) result }
    ensures integer { IfOk result (λ decoded. IsIntegerPoint (program_of net.now) point.now) }
    ensures admissible { IfOk result (λ decoded. IsAdmissiblePlan net.now decoded.plan) }
    ensures point { IfOk result (λ decoded. point.now ≡ point_of net.now decoded.plan.words) }
{
    unbroken_lists_are_integer_points();
    is_integer_point(program, point)?;
    let plan = plan_of_point(alloc, net, program, point)?;
    let delay = delay(alloc, net, &plan)?;
    Ok(Decoded { plan, delay })
}

/// The plan whose point an integer point is. Its bits show it.
fn plan_of_point(alloc: Global, net: &Net, program: &Program, point: &[i64]) -> Result<Plan, Memory>
    requires valid { IsValid net.now }
    requires program { program.now ≡ program_of net.now }
    requires integer { IsIntegerPoint (program_of net.now) point.now }
    ensures shown { IfOk result (λ plan. plan ≡ plan_shown net.now point.now) }
    ensures of { IfOk result (IsPlanOf net.now point.now) }
{
    points_are_points_of_plans();
    let bits = &point[..program.plan_cols() as usize];
    match plan_of_bits(alloc, net, bits)? {
        Some(plan) => Ok(plan),
        None => unreachable!(),
    }
}
