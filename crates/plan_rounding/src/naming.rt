//! The plans `short` and `long`.

ghost use Rattle.std.specs.Prelude.{◌≡◌, IfOk, length};
ghost use Rattle.ct_base.specs.Validity.{IsBetween, IsSignal, IsValid};
ghost use Rattle.traffic_model.specs.Runs.{IsAdmissiblePlan};
ghost use Rattle.plan_rounding.specs.Named.{named_plan, named_word};

use crate::runs::{fill, starting};
use ct_base::{Listed, Memory, Net, Plan, Signal, Word};
use std::alloc::Global;

/// The plan `short`, or where `long` is true the plan `long`: each run has its minimum green, or its maximum; each next phase is the
/// lowest-numbered one that may follow; the horizon cuts the last run.
pub fn named(alloc: Global, net: &Net, long: bool) -> Result<Plan, Memory>
    requires valid { IsValid net.now }
    ensures value { IfOk result (λ plan. plan ≡ named_plan net.now long) }
    ensures admissible { IfOk result (IsAdmissiblePlan net.now) }
{
    let mut words = Listed::new(alloc);
    for number in 0..net.signals.len() {
        words.push(named_word(alloc, net.signal(number), long, net.steps)?)?;
    }
    Ok(Plan { words })
}

/// The word of a signal in the plan.
fn named_word(alloc: Global, signal: &Signal, long: bool, steps: u32) -> Result<Word, Memory>
    requires signal { IsSignal signal.now }
    ensures { IfOk result (λ word. word ≡ named_word signal.now long steps) }
{
    let mut word = Word::new(alloc);
    fill(&mut word, signal, long, starting(signal), steps)?;
    Ok(word)
}
