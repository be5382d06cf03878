//! Plans of fixed splits: each signal shows its phases in a round, and each phase has the same green in every round.

ghost use Rattle.std.specs.Prelude.{◌≡◌, ◌<◌, IfOk, length};
ghost use Rattle.ct_base.specs.Validity.{IsSignal, IsValid};
ghost use Rattle.traffic_model.specs.Runs.{IsAdmissiblePlan};

use crate::constants::{LEVELS_OF_A_SPLIT, PARTS_OF_A_GREEN};
use crate::greens::push_within;
use crate::naming::named;
use crate::runs::{fill, starting};
use crate::word_change::with_word;
use ct_base::{Memory, Net, Phase, Plan, Signal, Word};
use phase_rules::admissible;
use std::alloc::Global;

/// How long the greens of a fixed split are: parts of the way from the minimum green of a phase to its maximum.
#[derive(Clone, Copy, Debug, PartialEq, Eq)]
pub(crate) struct Split {
    /// The parts of the first phase of each signal.
    first: u32,
    /// The parts of all other phases.
    others: u32,
}

/// The split with a number. They are ordered by the parts of the first phases, then by those of the others.
pub(crate) fn split_numbered(number: usize) -> Split {
    Split {
        first: (number / LEVELS_OF_A_SPLIT % LEVELS_OF_A_SPLIT) as u32,
        others: (number % LEVELS_OF_A_SPLIT) as u32,
    }
}

/// The plan of a split. A word that its signal may not show gives way to that of `short`.
pub(crate) fn split_plan(alloc: Global, net: &Net, split: Split) -> Result<Plan, Memory>
    requires valid { IsValid net.now }
    ensures { IfOk result (IsAdmissiblePlan net.now) }
{
    let mut plan = named(alloc, net, false)?;
    for signal in 0..net.signals.len() {
        let word = split_word(alloc, net.signal(signal), split, net.steps)?;
        plan = with_judged(alloc, net, plan, signal, &word)?;
    }
    Ok(plan)
}

/// A plan with another word for one signal, or the plan itself where the signal may not show it.
fn with_judged(
    alloc: Global,
    net: &Net,
    plan: Plan,
    signal: usize,
    word: &Word,
) -> Result<Plan, Memory>
    requires valid { IsValid net.now }
    requires admissible { IsAdmissiblePlan net.now plan }
    requires inside { signal < length net.now.signals }
    requires length { length word.now ≡ net.now.steps }
    ensures { IfOk result (IsAdmissiblePlan net.now) }
{
    if admissible(net.signal(signal), word.as_slice()) {
        with_word(alloc, net, &plan, signal, word)
    } else {
        Ok(plan)
    }
}

/// The word of a signal in the plan of a split, which the horizon cuts.
fn split_word(alloc: Global, signal: &Signal, split: Split, steps: u32) -> Result<Word, Memory>
    requires signal { IsSignal signal.now }
    ensures { IfOk result (λ word. length word ≡ steps) }
{
    let mut word = Word::new(alloc);
    let mut allowed = starting(signal);
    let mut phase = signal.start;
    for _ in 0..steps {
        if steps <= word.len() as u32 {
            break;
        }
        phase = next_in_round(allowed, phase);
        let green = split_green(signal, split, phase);
        allowed = push_within(&mut word, signal, phase, green, allowed, steps)?;
    }
    fill(&mut word, signal, false, allowed, steps)?;
    Ok(word)
}

/// The phase of a set that follows another one in a round: the lowest-numbered one behind it, or else the lowest-numbered of all.
fn next_in_round(allowed: u8, phase: u8) -> u8 {
    let behind = allowed >> phase.min(7) >> 1;
    if behind == 0 {
        allowed.trailing_zeros() as u8
    } else {
        phase.saturating_add(1 + behind.trailing_zeros() as u8)
    }
}

/// The green that a phase has in a split; 0 where the signal does not have the phase.
fn split_green(signal: &Signal, split: Split, phase: u8) -> u32 {
    let parts = if phase == 0 {
        split.first
    } else {
        split.others
    };
    match signal.phases.as_slice().get(phase as usize) {
        Some(limits) => green_between(limits, parts),
        None => 0,
    }
}

/// A green that is so many parts of the way above the minimum.
fn green_between(limits: &Phase, parts: u32) -> u32 {
    let most = limits.max.saturating_sub(limits.min);
    limits
        .min
        .saturating_add(most.saturating_mul(parts) / PARTS_OF_A_GREEN)
}
