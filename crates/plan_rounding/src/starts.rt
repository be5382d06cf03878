//! The plans that a rounding starts from: `short`, and the best of the fixed splits.

ghost use Rattle.std.specs.Prelude.{◌≤◌, IfOk, false, true};
ghost use Rattle.ct_base.specs.Validity.{IsValid};
ghost use Rattle.plan_rounding.specs.Named.{named_plan};
ghost use Rattle.plan_rounding.specs.Replayed.{IsReplayed, delay_in};

use crate::climbing::{Climb, improved};
use crate::constants::{
    LEVELS_OF_A_SPLIT, STARTS_OF_A_ROUNDING, TRIES_OF_A_ROUNDING, TRIES_OF_A_START,
};
use crate::naming::named;
use crate::replays::{ReplayedPlan, better, replayed};
use crate::splits::{split_numbered, split_plan};
use ct_base::{Memory, Net};
use std::alloc::Global;

/// What the best of the starts is improved to, no worse than `short` and `long`.
///
/// Each start is improved a little: `short`, and the plans of the few fixed splits with the least delays. The climb goes on from the
/// best that came of them. `long` is no start, and is taken only where nothing is better.
pub(crate) fn best_of_starts(alloc: Global, net: &Net) -> Result<ReplayedPlan, Memory>
    requires valid { IsValid net.now }
    ensures of { IfOk result (IsReplayed net.now) }
    ensures short { IfOk result (λ found. found.delay ≤ delay_in net.now (named_plan net.now false)) }
    ensures long { IfOk result (λ found. found.delay ≤ delay_in net.now (named_plan net.now true)) }
{
    let best = best_of_named(alloc, net)?;
    let best = best_of_splits(alloc, net, best)?;
    improved(alloc, net, best.plan, TRIES_OF_A_ROUNDING)
}

/// The better of `long`, and what `short` is improved to.
fn best_of_named(alloc: Global, net: &Net) -> Result<ReplayedPlan, Memory>
    requires valid { IsValid net.now }
    ensures of { IfOk result (IsReplayed net.now) }
    ensures short { IfOk result (λ found. found.delay ≤ delay_in net.now (named_plan net.now false)) }
    ensures long { IfOk result (λ found. found.delay ≤ delay_in net.now (named_plan net.now true)) }
{
    let short = improved(alloc, net, named(alloc, net, false)?, TRIES_OF_A_START)?;
    let long = replayed(alloc, net, named(alloc, net, true)?)?;
    Ok(better(short, long))
}

/// The best of a plan, and of what the few splits with the least delays are improved to. Of splits with the same delay only the first
/// is taken: they are mostly one plan.
fn best_of_splits(alloc: Global, net: &Net, first: ReplayedPlan) -> Result<ReplayedPlan, Memory>
    requires valid { IsValid net.now }
    requires first { IsReplayed net.now first }
    ensures of { IfOk result (IsReplayed net.now) }
    ensures no_worse { IfOk result (λ found. found.delay ≤ first.delay) }
{
    let delays = split_delays(alloc, net)?;
    let mut best = first;
    let mut least = 0;
    for _ in 0..STARTS_OF_A_ROUNDING {
        let number = least_from(delays.as_slice(), least);
        if delays.len() <= number {
            break;
        }
        least = delays[number].saturating_add(1);
        best = with_split(alloc, net, best, number)?;
    }
    Ok(best)
}

/// The better of a plan, and of what the split with a number is improved to.
fn with_split(
    alloc: Global,
    net: &Net,
    best: ReplayedPlan,
    number: usize,
) -> Result<ReplayedPlan, Memory>
    requires valid { IsValid net.now }
    requires best { IsReplayed net.now best }
    ensures of { IfOk result (IsReplayed net.now) }
    ensures no_worse { IfOk result (λ found. found.delay ≤ best.delay) }
{
    let plan = split_plan(alloc, net, split_numbered(number))?;
    let found = improved(alloc, net, plan, TRIES_OF_A_START)?;
    Ok(better(best, found))
}

/// The delays of all splits, in the order of their numbers. Each is replayed from the first step at which it differs from the one
/// before it.
fn split_delays(alloc: Global, net: &Net) -> Result<Vec<u64>, Memory>
    requires valid { IsValid net.now }
{
    let mut delays = Vec::new(alloc);
    let mut climb = Climb::start(alloc, net, named(alloc, net, false)?)?;
    for number in 0..LEVELS_OF_A_SPLIT * LEVELS_OF_A_SPLIT {
        let plan = split_plan(alloc, net, split_numbered(number))?;
        delays.push(climb.delay_of(net, plan)?)?;
    }
    Ok(delays)
}

/// The number of the least delay that is not below a limit, the first of several; the number of delays where there is none.
fn least_from(delays: &[u64], limit: u64) -> usize {
    let mut best = delays.len();
    let mut least = u64::MAX;
    for (number, delay) in delays.iter().enumerate() {
        if limit <= *delay && *delay < least {
            best = number;
            least = *delay;
        }
    }
    best
}
