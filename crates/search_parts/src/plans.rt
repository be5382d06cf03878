//! Plans that are replayed, improved and rounded to.

ghost use Rattle.ct_base.specs.Validity.{IsValid};

use cell_replay::{KeptReplay, delay};
use ct_base::{Memory, Net};
use plan_rounding::{improved, named, round};
use std::alloc::Global;

/// So often a plan is replayed.
const REPLAYS: u32 = 100;

/// Replays the plan `short` whole, and then many times from a step on. Answers whether its delay stays what a replay of its own tells.
pub fn replay_from(alloc: Global, net: &Net, first: u32) -> Result<bool, Memory>
    requires { IsValid net.now }
{
    let plan = named(alloc, net, false)?;
    let mut kept = KeptReplay::start(alloc, net, &plan)?;
    if first <= net.steps {
        for _ in 0..REPLAYS {
            kept.replay(net, &plan, first);
        }
    }
    Ok(kept.delay() == delay(alloc, net, &plan)?)
}

/// The delay of what `short` is improved to with so many tries, and what the replay of that plan tells.
pub fn climb(alloc: Global, net: &Net, tries: u32) -> Result<(u64, u64), Memory>
    requires { IsValid net.now }
{
    let found = improved(alloc, net, named(alloc, net, false)?, tries)?;
    Ok((found.delay, delay(alloc, net, &found.plan)?))
}

/// The delay of the plan that no point is rounded to, and what the replay of that plan tells.
pub fn round_plans(alloc: Global, net: &Net) -> Result<(u64, u64), Memory>
    requires { IsValid net.now }
{
    let found = round(alloc, net, &[])?;
    Ok((found.delay, delay(alloc, net, &found.plan)?))
}
