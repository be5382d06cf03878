//! Words that are made of runs: the letters of a run, and runs that fill what is left of the horizon.

ghost use Rattle.std.specs.Prelude.{◌≡◌, ◌++◌, ◌<◌, ◌≤◌, ◌^◌, IfOk, OnOk, length, replicate, take};
ghost use Rattle.ct_base.specs.Access.{phase_of};
ghost use Rattle.ct_base.specs.Validity.{IsSignal};
ghost use Rattle.ct_base.specs.declared.plan.Letter.TheVariants.{Green, Clear};
ghost use Rattle.traffic_model.specs.Runs.{letters_of_run, letters_of_runs};
ghost use Rattle.plan_rounding.specs.Named.{green_in, lowest_of, named_run, named_runs};

use ct_base::{Letter, Memory, Phase, Signal, Word};

/// Fills a word up to the horizon with runs, the first of the lowest-numbered phase of a set and each next one of the lowest-numbered
/// that may follow. Each has its minimum green, or where `long` is true its maximum.
pub(crate) fn fill(
    word: &mut Word,
    signal: &Signal,
    long: bool,
    first: u8,
    steps: u32,
) -> Result<(), Memory>
    requires signal { IsSignal signal.now }
    requires some { 0 < first }
    requires phases { first < 2 ^ length signal.now.phases }
    requires within { length word.old ≤ steps }
    ensures letters { OnOk result (word.new ≡ take steps (word.old ++ letters_of_runs signal.now (named_runs signal.now long first steps))) }
    ensures whole { OnOk result (length word.new ≡ steps) }
{
    let mut allowed = first;
    for _ in 0..steps {
        allowed = push_named(word, signal, long, allowed, steps)?;
    }
    Ok(())
}

/// Adds a run of the lowest-numbered phase of a set, and answers which phases may follow.
fn push_named(
    word: &mut Word,
    signal: &Signal,
    long: bool,
    allowed: u8,
    steps: u32,
) -> Result<u8, Memory>
    requires signal { IsSignal signal.now }
    requires some { 0 < allowed }
    requires phases { allowed < 2 ^ length signal.now.phases }
    requires within { length word.old ≤ steps }
    ensures letters { OnOk result (word.new ≡ take steps (word.old ++ letters_of_run signal.now (named_run signal.now long allowed))) }
    ensures within { OnOk result (length word.new ≤ steps) }
    ensures next { IfOk result (λ next. next ≡ (phase_of signal.now (lowest_of allowed)).next) }
    ensures some { IfOk result (λ next. 0 < next) }
    ensures phases { IfOk result (λ next. next < 2 ^ length signal.now.phases) }
{
    let phase = lowest(allowed, signal);
    let limits = limits_of(signal, phase);
    push_run(word, phase, green_in(long, &limits), limits.clear, steps)?;
    Ok(limits.next)
}

/// The set of the starting phase alone.
pub(crate) fn starting(signal: &Signal) -> u8
    requires { IsSignal signal.now }
    ensures value { result ≡ 2 ^ signal.now.start }
    ensures some { 0 < result }
    ensures phases { result < 2 ^ length signal.now.phases }
{
    1 << signal.start
}

/// The lowest-numbered phase of a set of phases of a signal.
fn lowest(phases: u8, signal: &Signal) -> u8
    requires some { 0 < phases }
    requires phases { phases < 2 ^ length signal.now.phases }
    ensures value { result ≡ lowest_of phases }
    ensures inside { result < length signal.now.phases }
{
    let _ = signal;
    phases.trailing_zeros() as u8
}

/// The limits of a phase.
fn limits_of(signal: &Signal, phase: u8) -> Phase
    requires signal { IsSignal signal.now }
    requires inside { phase < length signal.now.phases }
    ensures value { result ≡ phase_of signal.now phase }
    ensures some { 0 < result.next }
    ensures phases { result.next < 2 ^ length signal.now.phases }
{
    signal.phases.as_slice()[phase as usize]
}

/// The green that a phase has in `short`, or in `long`.
fn green_in(long: bool, limits: &Phase) -> u32
    ensures { result ≡ green_in long limits.now }
{
    if long { limits.max } else { limits.min }
}

/// Adds the letters of a run, or as many as the horizon leaves room for.
pub(crate) fn push_run(
    word: &mut Word,
    phase: u8,
    green: u32,
    clear: u32,
    steps: u32,
) -> Result<(), Memory>
    requires { length word.old ≤ steps }
    ensures letters { OnOk result (word.new ≡ take steps (word.old ++ (replicate green (Green phase) ++ replicate clear (Clear phase)))) }
    ensures within { OnOk result (length word.new ≤ steps) }
{
    push_letters(word, Letter::Green(phase), green, steps)?;
    push_letters(word, Letter::Clear(phase), clear, steps)?;
    Ok(())
}

/// Adds a letter so many times, or as often as the horizon leaves room for it.
fn push_letters(word: &mut Word, letter: Letter, count: u32, steps: u32) -> Result<(), Memory>
    requires { length word.old ≤ steps }
    ensures letters { OnOk result (word.new ≡ take steps (word.old ++ replicate count letter)) }
    ensures within { OnOk result (length word.new ≤ steps) }
{
    let room = steps - word.len() as u32;
    for _ in 0..count.min(room) {
        word.push(letter)?;
    }
    Ok(())
}
