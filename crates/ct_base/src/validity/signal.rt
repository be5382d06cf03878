//! The rules of a signal and its phases.

ghost use Rattle.std.specs.Prelude.{◌≡◌, ◌<◌, ◌≤◌, ◌^◌, ◌↔◌, length, EachIndex, IsTrue, slice_index_or};
ghost use Rattle.ct_base.specs.Access.{no_phase};
ghost use Rattle.ct_base.specs.Validity.{IsPhase, IsSignal};

use crate::signal::{Phase, Signal};
use limits::{MAX_CLEAR, MAX_GREEN, MAX_PHASES};

/// Whether a signal obeys its rules: 2 to 8 phases, the first run's among them, and each by its own rules.
pub fn is_signal(signal: &Signal) -> bool
    ensures { IsTrue result ↔ IsSignal signal.now }
{
    let phases = signal.phases.as_slice();
    2 <= phases.len()
        && phases.len() <= MAX_PHASES
        && (signal.start as usize) < phases.len()
        && are_phases(phases)
}

/// Whether each phase obeys its rules.
fn are_phases(phases: &[Phase]) -> bool
    requires { length phases.now ≤ 8 }
    ensures { IsTrue result ↔ EachIndex phases.now (λ p. IsPhase (length phases.now) p (slice_index_or phases.now p no_phase)) }
{
    for number in 0..phases.len() {
        if !is_phase(phases.len(), number, &phases[number]) {
            return false;
        }
    }
    true
}

/// Whether the phase with a number, of so many phases, obeys its rules: its times in steps, and which phases may
/// follow it.
pub fn is_phase(phases: usize, number: usize, phase: &Phase) -> bool
    requires { number < 8 }
    ensures { IsTrue result ↔ IsPhase phases number phase.now }
{
    1 <= phase.min
        && phase.min <= MAX_GREEN
        && phase.min <= phase.max
        && phase.max <= MAX_GREEN
        && phase.clear <= MAX_CLEAR
        && 1 <= phase.next
        && is_set_of_phases(phases, phase.next)
        && (phase.next >> number) & 1 == 0
}

/// Whether a set names none but the first so many phases: bit p is 1 where phase p is in it.
pub fn is_set_of_phases(phases: usize, set: u8) -> bool
    ensures { IsTrue result ↔ set < 2 ^ phases }
{
    if phases < 8 {
        u32::from(set) < 1 << phases
    } else {
        true
    }
}
