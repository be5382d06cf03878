//! The phases of a signal by their numbers, and sets of phases.

ghost use Rattle.std.specs.Int.{bit_at};
ghost use Rattle.std.specs.Prelude.{◌≡◌, ◌≤◌, ◌==◌};
ghost use Rattle.ct_base.specs.Access.{phase_of};
ghost use Rattle.ct_base.specs.Validity.{IsSignal};

use ct_base::{Phase, Signal};

/// The phase of a number, or a phase that stands for none: it has no green, no clearing, and none to follow it.
pub(crate) fn phase_at(signal: &Signal, number: u8) -> Phase
    requires signal { IsSignal signal.now }
    ensures value { result ≡ phase_of signal.now number }
    ensures clear { result.clear ≤ 20 }
{
    match signal.phases.as_slice().get(number as usize) {
        Some(phase) => *phase,
        None => Phase {
            min: 0,
            max: 0,
            clear: 0,
            next: 0,
        },
    }
}

/// Whether a phase is in a set of phases.
pub(crate) fn is_member(phases: u8, phase: u8) -> bool
    ensures { result ≡ (bit_at phases phase == 1) }
{
    phase < 8 && (phases >> phase) & 1 == 1
}
