//! The point of a plan: what each column of the network's program counts while the plan runs.

ghost use Rattle.std.specs.Prelude.{◌≡◌, IfOk, pos};
ghost use Rattle.ct_base.specs.Validity.{IsValid};
ghost use Rattle.program_model.specs.Points.{IsIntegerPoint, objective, point_of, program_of};
ghost use Rattle.traffic_model.specs.Delay.{delay_of, letters_at};
ghost use Rattle.traffic_model.specs.Runs.{IsAdmissiblePlan};

mod bits;
mod cells;
mod terms;

use bits::push_bits;
use cells::push_steps;
use ct_base::{Memory, Net, Plan};
use program_layout::layout_of;
use program_model::laws::{
    points_of_plans_are_integer_points, the_objective_of_a_point_is_the_delay,
};
use sparse_program::{Listed, Point};
use std::alloc::Global;

/// The point of a plan: a value for each column of the network's program, in their order. The plan is replayed step by
/// step. The point meets all rows of the program, and what it costs is the plan's delay.
pub fn encode(alloc: Global, net: &Net, plan: &Plan) -> Result<Point, Memory>
    requires valid { IsValid net.now }
    requires admissible { IsAdmissiblePlan net.now plan.now }
    ensures value { IfOk result (λ point. point ≡ point_of net.now plan.now.words) }
    ensures integer { IfOk result (λ point. IsIntegerPoint (program_of net.now) point) }
    ensures objective { IfOk result (λ point. objective (program_of net.now) point
        ≡ pos (delay_of net.now.cells (letters_at plan.now.words) net.now.steps)) }
{
    points_of_plans_are_integer_points();
    the_objective_of_a_point_is_the_delay();
    let layout = layout_of(alloc, net)?;
    let mut values = Vec::new(alloc);
    push_bits(&mut values, net, plan)?;
    push_steps(alloc, &mut values, net, &layout, plan)?;
    Ok(Listed::of(values))
}
