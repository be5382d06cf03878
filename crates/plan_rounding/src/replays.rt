//! Plans with their delays.

ghost use Rattle.std.specs.Prelude.{◌≡◌, ◌⊎◌, ◌≤◌, IfOk};
ghost use Rattle.ct_base.specs.Validity.{IsValid};
ghost use Rattle.traffic_model.specs.Runs.{IsAdmissiblePlan};
ghost use Rattle.plan_rounding.specs.Replayed.{IsReplayed};

use cell_replay::delay;
use ct_base::{Memory, Net, Plan};
use std::alloc::Global;

/// An admissible plan and its delay over the whole horizon, in units times steps.
#[derive(Debug, Drop)]
pub struct ReplayedPlan {
    pub plan: Plan,
    pub delay: u64,
}

/// A plan with its delay.
pub fn replayed(alloc: Global, net: &Net, plan: Plan) -> Result<ReplayedPlan, Memory>
    requires valid { IsValid net.now }
    requires admissible { IsAdmissiblePlan net.now plan }
    ensures plan { IfOk result (λ found. found.plan ≡ plan) }
    ensures of { IfOk result (IsReplayed net.now) }
{
    let delay = delay(alloc, net, &plan)?;
    Ok(ReplayedPlan { plan, delay })
}

/// The one of two plans that has the lesser delay; the first where both have the same.
pub(crate) fn better(first: ReplayedPlan, second: ReplayedPlan) -> ReplayedPlan
    ensures one_of { (result ≡ first) ⊎ (result ≡ second) }
    ensures first { result.delay ≤ first.delay }
    ensures second { result.delay ≤ second.delay }
{
    if second.delay < first.delay {
        second
    } else {
        first
    }
}
