//! The best plan that a point leads to.

ghost use Rattle.std.specs.Prelude.{◌≡◌, ◌≢◌, ◌≤◌, IfOk, IfSome, None, Ok, false, pos, slice_index_or, true};
ghost use Rattle.ct_base.specs.Validity.{IsValid};
ghost use Rattle.ct_base.specs.declared.plan.Plan as declared;
ghost use Rattle.listed.specs.Below.{table_of};
ghost use Rattle.traffic_model.specs.Runs.{IsAdmissiblePlan};
ghost use Rattle.program_model.specs.Numbers.{plan_count};
ghost use Rattle.certificate_model.specs.Leaves.{bits_of};
ghost use Rattle.plan_rounding.specs.Named.{named_plan};
ghost use Rattle.plan_rounding.specs.Replayed.{IsReplayed, delay_in, plan_values};

use crate::climbing::improved;
use crate::constants::TRIES_OF_A_ROUNDING;
use crate::replays::{ReplayedPlan, better};
use crate::starts::best_of_starts;
use ct_base::{Memory, Net, Plan};
use plan_bits::plan_of_bits;
use program_layout::layout_of;
use std::alloc::Global;

/// A plan with its delay, which is no worse than `short`, than `long`, and than the plan whose bits the point has in its plan
/// columns, where they are an admissible plan's. Any list is a point; a value that is missing counts as 0.
///
/// What the best of some starts is improved to (docs/search.md, "Plans"), and what the plan of the point is, are compared.
pub fn round(alloc: Global, net: &Net, point: &[i64]) -> Result<ReplayedPlan, Memory>
    requires valid { IsValid net.now }
    ensures of { IfOk result (IsReplayed net.now) }
    ensures short { IfOk result (λ found. found.delay ≤ delay_in net.now (named_plan net.now false)) }
    ensures long { IfOk result (λ found. found.delay ≤ delay_in net.now (named_plan net.now true)) }
    ensures point { IfOk result (λ found. (plan : declared.Plan) → IsAdmissiblePlan net.now plan → plan_values net.now point.now ≡ bits_of net.now plan.words →
        found.delay ≤ delay_in net.now plan) }
{
    let best = best_of_starts(alloc, net)?;
    match plan_at(alloc, net, point)? {
        Some(plan) => {
            let found = improved(alloc, net, plan, TRIES_OF_A_ROUNDING)?;
            Ok(better(best, found))
        }
        None => Ok(best),
    }
}

/// The admissible plan whose bits a point has in its plan columns, or none where they are those of no admissible plan.
fn plan_at(alloc: Global, net: &Net, point: &[i64]) -> Result<Option<Plan>, Memory>
    requires valid { IsValid net.now }
    ensures admissible { IfOk result (λ found. IfSome found (IsAdmissiblePlan net.now)) }
    ensures bits { IfOk result (λ found. IfSome found (λ plan. plan_values net.now point.now ≡ bits_of net.now plan.words)) }
    ensures none { result ≡ Ok None → (plan : declared.Plan) → IsAdmissiblePlan net.now plan → plan_values net.now point.now ≢ bits_of net.now plan.words }
{
    let columns = plan_columns(alloc, net)?;
    let values = values_of(alloc, point, columns)?;
    plan_of_bits(alloc, net, values.as_slice())
}

/// How many plan columns a network has.
fn plan_columns(alloc: Global, net: &Net) -> Result<u32, Memory>
    requires { IsValid net.now }
    ensures { IfOk result (λ columns. columns ≡ plan_count net.now) }
{
    let layout = layout_of(alloc, net)?;
    Ok(layout.plan)
}

/// So many values of a point, of which one that is missing is 0.
fn values_of(alloc: Global, point: &[i64], count: u32) -> Result<Vec<i64>, Memory>
    ensures { IfOk result (λ values. values.items ≡ table_of count (λ c. slice_index_or point.now c (pos 0))) }
{
    let mut values = Vec::new(alloc);
    for column in 0..count as usize {
        values.push(value_at(point, column))?;
    }
    Ok(values)
}

/// A value of a point, which is 0 where it is missing.
fn value_at(point: &[i64], column: usize) -> i64
    ensures { result ≡ slice_index_or point.now column (pos 0) }
{
    match point.get(column) {
        Some(value) => *value,
        None => 0,
    }
}
