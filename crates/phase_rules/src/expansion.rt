//! The word that runs become.

ghost use Rattle.std.specs.Int.{bit_at};
ghost use Rattle.std.specs.Prelude.{◌≡◌, ◌+◌, ◌<◌, ◌≤◌, ◌^◌, ◌==◌, ◌&&◌, ◌||◌, nat_lt, nat_le, [], ◌∷◌, ◌++◌, length, map, replicate, take, IfOk, OnOk};
ghost use Rattle.ct_base.specs.Access.{phase_of};
ghost use Rattle.ct_base.specs.Validity.{IsBetween, IsSignal};
ghost use Rattle.refusals.specs.Faults.{unless};
ghost use Rattle.refusals.specs.Memory.{OrMemory};
ghost use Rattle.traffic_model.specs.Runs.{IsAdmissible, letters_of_runs};
ghost use Rattle.phase_rules.specs.Expansion.{begins_at, expanded, faults_at, faults_of, is_green, may_be, out_of_order, run_by, short_faults};
ghost use Rattle.phase_rules.specs.inner.Judging.{faults_of_run};

use crate::fault::RunFault;
use crate::phase::{is_member, phase_at};
use ct_base::{Letter, Memory, Phase, Signal, Word};
use std::alloc::Global;

/// The word that a list of runs becomes over so many steps, or the first fault: the runs are judged in their order, and
/// then whether they reach the horizon.
///
/// A run is a phase and how many steps of the horizon show its green. Its clearing letters are not given: they come
/// after the green by themselves, as far as the horizon has room.
pub fn expand(
    alloc: Global,
    signal: &Signal,
    runs: &[(u8, u32)],
    steps: u32,
) -> Result<Word, RunFault>
    requires signal { IsSignal signal.now }
    requires steps { IsBetween 1 240 steps }
    ensures word { OrMemory RunFault.Memory (expanded signal.now (map run_by runs.now) steps) result }
    ensures length { IfOk result (λ word. length word ≡ steps) }
    ensures admissible { IfOk result (IsAdmissible signal.now) }
{
    judge_all(signal, runs, steps)?;
    let word = word_of(alloc, signal, runs, steps)?;
    Ok(word)
}

/// The first fault of the runs, where they have one.
fn judge_all(signal: &Signal, runs: &[(u8, u32)], steps: u32) -> Result<(), RunFault>
    requires signal { IsSignal signal.now }
    requires steps { IsBetween 1 240 steps }
    ensures { result ≡ unless (faults_of signal.now (map run_by runs.now) steps) tt }
{
    let mut letters = 0;
    for (j, run) in runs.iter().enumerate() {
        judge_run(signal, &runs[..j], letters, *run, steps)?;
        letters += run.1 + phase_at(signal, run.0).clear;
    }
    judge_end(signal, runs, letters, steps)?;
    Ok(())
}

/// Whether a run may come after those before it, which have so many letters. It takes no memory.
pub fn judge_run(
    signal: &Signal,
    before: &[(u8, u32)],
    letters: u32,
    run: (u8, u32),
    steps: u32,
) -> Result<(), RunFault>
    requires signal { IsSignal signal.now }
    requires steps { IsBetween 1 240 steps }
    requires letters { letters ≡ begins_at signal.now (map run_by before.now) (length before.now) }
    requires few { length before.now < 2 ^ 32 }
    ensures { result ≡ unless (faults_at signal.now (map run_by (before.now ++ run ∷ [])) steps (length before.now)) tt }
{
    let allowed = allowed_after(signal, before);
    judge_green(signal, allowed, letters, before.len() as u32, run, steps)
}

/// The phases that may come after the runs: the starting one, or those that may follow the last.
fn allowed_after(signal: &Signal, before: &[(u8, u32)]) -> u8
    requires signal { IsSignal signal.now }
    ensures { result ≡ may_be signal.now (map run_by before.now) (length before.now) }
{
    match before.last() {
        Some(run) => phase_at(signal, run.0).next,
        None => 1 << signal.start,
    }
}

/// Whether a run of a phase of the set may begin where so many letters stand before it.
fn judge_green(
    signal: &Signal,
    allowed: u8,
    letters: u32,
    number: u32,
    run: (u8, u32),
    steps: u32,
) -> Result<(), RunFault>
    requires signal { IsSignal signal.now }
    ensures { result ≡ unless (faults_of_run signal.now allowed letters steps number (run_by run)) tt }
{
    let (phase, green) = run;
    if steps <= letters {
        return Err(RunFault::Surplus { run: number });
    }
    if !is_member(allowed, phase) {
        return Err(out_of_order(number));
    }
    if !is_green(&phase_at(signal, phase), green, steps - letters) {
        return Err(RunFault::Green { run: number });
    }
    Ok(())
}

/// The fault of a run of the wrong phase.
fn out_of_order(number: u32) -> RunFault
    ensures { result ≡ out_of_order number }
{
    if number == 0 {
        RunFault::Start
    } else {
        RunFault::Order { run: number }
    }
}

/// Whether so many green letters keep the limits of the phase where so many steps are left of the horizon, which may
/// cut the green before its minimum.
fn is_green(phase: &Phase, green: u32, left: u32) -> bool
    ensures { result ≡ (nat_lt 0 green && (nat_le green phase.now.max && (nat_le green left && (nat_le phase.now.min green || (green == left))))) }
{
    0 < green && green <= phase.max && green <= left && (phase.min <= green || green == left)
}

/// Whether runs of so many letters reach the horizon.
fn judge_end(signal: &Signal, runs: &[(u8, u32)], letters: u32, steps: u32) -> Result<(), RunFault>
    requires letters { letters ≡ begins_at signal.now (map run_by runs.now) (length runs.now) }
    ensures { result ≡ unless (short_faults signal.now (map run_by runs.now) steps) tt }
{
    if letters < steps {
        return Err(RunFault::Short { letters });
    }
    Ok(())
}

/// The letters of the runs, cut by the horizon.
fn word_of(alloc: Global, signal: &Signal, runs: &[(u8, u32)], steps: u32) -> Result<Word, Memory>
    requires signal { IsSignal signal.now }
    ensures { IfOk result (λ word. word ≡ take steps (letters_of_runs signal.now (map run_by runs.now))) }
{
    let mut word = Word::new(alloc);
    for run in runs {
        let clear = phase_at(signal, run.0).clear;
        push_letters(&mut word, Letter::Green(run.0), run.1, steps)?;
        push_letters(&mut word, Letter::Clear(run.0), clear, steps)?;
    }
    Ok(word)
}

/// Adds a letter so many times, or as often as the horizon leaves room for it.
fn push_letters(word: &mut Word, letter: Letter, count: u32, steps: u32) -> Result<(), Memory>
    requires { length word.old ≤ steps }
    ensures letters { OnOk result (word.new ≡ take steps (word.old ++ replicate count letter)) }
    ensures within { OnOk result (length word.new ≤ steps) }
{
    let room = steps - word.len() as u32;
    for _ in 0..count.min(room) {
        word.push(letter)?;
    }
    Ok(())
}
