//! How many rule rows there are: of each signal, step by step and phase by phase.

ghost use Rattle.std.specs.Prelude.{◌≡◌, ◌<◌, ◌≤◌, ◌+◌, ◌*◌, nat_lt, if◌then◌else◌, length};
ghost use Rattle.ct_base.specs.Access.{phase_of, signal_of};
ghost use Rattle.ct_base.specs.Validity.{IsSignal, IsValid};
ghost use Rattle.listed.specs.Below.{join_below, sum_below};
ghost use Rattle.lo_program.specs.inner.Counts.{ends, follows, phase_rows, stays, step_rows};
ghost use Rattle.program_model.specs.Columns.{letters_of};
ghost use Rattle.program_model.specs.RuleRows.{rule_rows, rule_rows_at};

use crate::rules::bits::letters_brought;
use ct_base::{Net, Phase, Signal};

/// How many rule rows there are.
pub fn rule_row_count(net: &Net) -> u64
    requires { IsValid net.now }
    ensures value { result ≡ length (rule_rows net.now) }
    ensures few { result ≤ 16 * 240000 }
{
    let mut rows = 0;
    for s in 0..net.signals.len() {
        rows += rows_of_signal(net.signal(s), net.steps, s as u32);
    }
    rows
}

/// How many of them a signal has.
fn rows_of_signal(signal: &Signal, steps: u32, s: u32) -> u64
    requires valid { IsSignal signal.now }
    requires few { steps ≤ 240 }
    ensures value { result ≡ length (join_below steps (rule_rows_at signal.now steps s)) }
    ensures few { result ≤ 240000 }
{
    let _ = s;
    let mut rows = 0;
    for t in 0..steps {
        rows += rows_of_step(signal, steps, t);
    }
    rows
}

/// How many of them a signal has at step t.
fn rows_of_step(signal: &Signal, steps: u32, t: u32) -> u64
    requires valid { IsSignal signal.now }
    requires few { steps ≤ 240 }
    requires before { t < steps }
    ensures value { result ≡ step_rows signal.now steps t }
    ensures few { result ≤ 1000 }
{
    let (letters, rows) = letters_and_rows(signal, steps, t);
    if t + 1 < steps {
        1 + letters + rows
    } else {
        1 + rows
    }
}

/// How many letters a signal has, and how many rows the phases have at step t.
fn letters_and_rows(signal: &Signal, steps: u32, t: u32) -> (u64, u64)
    requires valid { IsSignal signal.now }
    requires few { steps ≤ 240 }
    requires before { t < steps }
    ensures letters { result.0 ≡ length (letters_of signal.now) }
    ensures few_letters { result.0 ≤ 16 }
    ensures rows { result.1 ≡ sum_below (length signal.now.phases) (λ p. phase_rows (phase_of signal.now p) steps t) }
    ensures few_rows { result.1 ≤ 800 }
{
    let mut letters = 0;
    let mut rows = 0;
    for (p, phase) in signal.phases.as_slice().iter().enumerate() {
        letters += u64::from(letters_brought(p as u8, phase.clear));
        rows += rows_of_phase(*phase, steps, t);
    }
    (letters, rows)
}

/// How many rows a phase has at step t.
fn rows_of_phase(phase: Phase, steps: u32, t: u32) -> u64
    requires before { t < steps }
    requires few { steps ≤ 240 }
    requires min { phase.min ≤ 60 }
    requires max { phase.max ≤ 60 }
    requires clear { phase.clear ≤ 20 }
    ensures value { result ≡ phase_rows phase steps t }
    ensures few { result ≤ 100 }
{
    stays(steps, t, phase.min)
        + ends(steps, t, phase.max)
        + stays(steps, t, phase.clear)
        + if phase.clear > 0 {
            ends(steps, t, phase.clear)
        } else {
            0
        }
}

/// How many rows a letter has that stays for at least so many steps.
fn stays(steps: u32, t: u32, least: u32) -> u64
    requires before { t < steps }
    requires few { least ≤ 60 }
    ensures value { result ≡ stays steps t least }
    ensures few { result ≤ least }
{
    u64::from(least.saturating_sub(1).min(steps - (t + 1)))
}

/// How many rows a letter has that ends after at most so many steps.
fn ends(steps: u32, t: u32, most: u32) -> u64
    requires before { t < steps }
    requires few { (steps ≤ 240) }
    requires most { most ≤ 60 }
    ensures value { result ≡ ends steps t most }
    ensures few { result ≤ 1 }
{
    if t + most < steps { 1 } else { 0 }
}
