//! Changes of the greens of a signal, and the word that a change makes.

ghost use Rattle.std.specs.Prelude.{◌≡◌, ◌<◌, ◌≤◌, ◌^◌, IfOk, IfSome, OnOk, length};
ghost use Rattle.ct_base.specs.Validity.{IsBetween, IsSignal};
ghost use Rattle.traffic_model.specs.Runs.{IsAdmissible};

use crate::constants::MOST_STEPS_OF_A_CHANGE;
use crate::runs::{fill, push_run, starting};
use ct_base::{Letter, Memory, Signal, Word};
use phase_rules::runs;
use std::alloc::Global;

/// A change of the green of one run, which may give as many steps to the next run, or take them from it.
#[derive(Clone, Copy, Debug, PartialEq, Eq)]
pub(crate) struct Change {
    /// The run, counted from 0.
    pub run: usize,
    /// By how many steps its green changes.
    pub steps: u32,
    /// Whether its green becomes longer, or else shorter.
    pub longer: bool,
    /// Whether the green of the next run changes as much the other way.
    pub shifts: bool,
}

/// The change with a number. The changes go run by run, and for a run from those of one step to those of the most steps.
pub(crate) fn change_numbered(number: u32) -> Change {
    let of_run = number % (4 * MOST_STEPS_OF_A_CHANGE);
    Change {
        run: (number / (4 * MOST_STEPS_OF_A_CHANGE)) as usize,
        steps: of_run / 4 + 1,
        longer: of_run % 2 == 0,
        shifts: of_run % 4 >= 2,
    }
}

/// The green that a run has after a change.
fn changed_green(change: Change, run: usize, green: u32) -> u32 {
    if run == change.run {
        moved(green, change.steps, change.longer)
    } else if change.shifts && change.run < run && run - change.run == 1 {
        moved(green, change.steps, !change.longer)
    } else {
        green
    }
}

/// A green that becomes longer, or shorter.
fn moved(green: u32, steps: u32, longer: bool) -> u32 {
    if longer {
        green.saturating_add(steps)
    } else {
        green.saturating_sub(steps)
    }
}

/// The word of a signal after a change of its greens, or none where it has no such run.
///
/// Each green is kept within the limits of its phase. Where the runs end before the horizon, further ones follow as in `short`.
pub(crate) fn changed_word(
    alloc: Global,
    signal: &Signal,
    word: &[Letter],
    change: Change,
) -> Result<Option<Word>, Memory>
    requires signal { IsSignal signal.now }
    requires length { IsBetween 1 240 (length word.now) }
    requires admissible { IsAdmissible signal.now word.now }
    ensures { IfOk result (λ found. IfSome found (λ changed. length changed ≡ length word.now)) }
{
    let runs = runs(alloc, signal, word)?;
    if runs.len() <= change.run {
        return Ok(None);
    }
    let changed = word_of(alloc, signal, runs.as_slice(), change, word.len() as u32)?;
    Ok(Some(changed))
}

/// The letters of the runs after a change, up to the horizon.
fn word_of(
    alloc: Global,
    signal: &Signal,
    runs: &[(u8, u32)],
    change: Change,
    steps: u32,
) -> Result<Word, Memory>
    requires signal { IsSignal signal.now }
    ensures { IfOk result (λ word. length word ≡ steps) }
{
    let mut word = Word::new(alloc);
    let mut allowed = starting(signal);
    for (number, run) in runs.iter().enumerate() {
        let green = changed_green(change, number, run.1);
        allowed = push_within(&mut word, signal, run.0, green, allowed, steps)?;
    }
    fill(&mut word, signal, false, allowed, steps)?;
    Ok(word)
}

/// Adds a run whose green is kept within the limits of its phase, and answers which phases may follow. A phase that the signal does
/// not have adds nothing.
pub(crate) fn push_within(
    word: &mut Word,
    signal: &Signal,
    phase: u8,
    green: u32,
    allowed: u8,
    steps: u32,
) -> Result<u8, Memory>
    requires signal { IsSignal signal.now }
    requires within { length word.old ≤ steps }
    requires some { 0 < allowed }
    requires phases { allowed < 2 ^ length signal.now.phases }
    ensures within { OnOk result (length word.new ≤ steps) }
    ensures some { IfOk result (λ next. 0 < next) }
    ensures phases { IfOk result (λ next. next < 2 ^ length signal.now.phases) }
{
    match signal.phases.as_slice().get(phase as usize) {
        Some(limits) => {
            let green = green.max(limits.min).min(limits.max);
            push_run(word, phase, green, limits.clear, steps)?;
            Ok(limits.next)
        }
        None => Ok(allowed),
    }
}
